// The verdict on a file: 0 exactly when it is accepted, else the number of the first rule that it breaks, by the order of paper 01; and what a
// receipt says of the file. One walk of the container, one pass over the outer map that notes and judges the named fields, one pass over each
// column, and the rules of counts.
#![tactic(auto)]

ghost use Rattle.std.specs.Prelude.{◌≡◌, ◌↔◌, IfOk};
ghost use Rattle.refusal.specs.Table.{refusal_number};
ghost use Rattle.refusal.specs.Outcome.{number_of};
ghost use Rattle.counts.specs.Steps.{Small};
ghost use Rattle.structure.specs.Accepted.{Accepted, entries_number, verdict_of};
ghost use Rattle.structure.specs.Summary.{accepted_summary, refused, summary_of};
ghost use Rattle.structure.specs.Steps.{WalkedNotes, accepted_with};

use counts::Counts;
use fields::Fields;
use refusal::Refusal;

// What a receipt says of a file: the verdict, and of an accepted file the five num fields and the set of its named fields, a bit for each; of a
// refused one zeros. The verdict is a number, since a receipt shows it, 0 too.
#[derive(Clone, Copy)]
pub struct Summary {
    pub verdict: u8,
    pub models: u32,
    pub chains: u32,
    pub groups: u32,
    pub atoms: u32,
    pub bonds: u32,
    pub presence: u64,
}

// The verdict on a file.
pub fn verdict(file: &[u8]) -> Result<(), Refusal>
    ensures number { number_of result ≡ verdict_of file.now }
    ensures exactly { (number_of result ≡ 0) ↔ Accepted file.now }
{
    judged(file)?;
    Ok(())
}

// What a receipt says of a file.
pub fn summary_of(file: &[u8]) -> Summary
    ensures { result ≡ summary_of file.now }
{
    match judged(file) {
        Ok(summary) => summary,
        Err(refusal) => refused_with(refusal),
    }
}

// What a receipt says of an accepted file, or the refusal of another.
fn judged(file: &[u8]) -> Result<Summary, Refusal>
    ensures number { number_of result ≡ verdict_of file.now }
    ensures summary { IfOk result (λ s. s ≡ summary_of file.now) }
{
    messagepack::container(file)?;
    let entries = values::entries_at(file, 0);
    let noted = fields::note(file, entries.count, entries.at);
    document_summary(file, noted)
}

// What is said of a container by what is noted of its fields, or its refusal.
fn document_summary(file: &[u8], noted: Fields) -> Result<Summary, Refusal>
    ensures { WalkedNotes file.now noted (λ es. (number_of result ≡ entries_number es) × IfOk result (λ s. s ≡ accepted_summary es)) }
{
    document_refusal(file, noted)?;
    let counts = counts::counts_at(file, &noted.places);
    Ok(accepted_with(counts, noted.presence))
}

// What is said of a refused file: its number and zeros.
fn refused_with(refusal: Refusal) -> Summary
    ensures { result ≡ refused (refusal_number refusal) }
{
    Summary {
        verdict: refusal.number(),
        models: 0,
        chains: 0,
        groups: 0,
        atoms: 0,
        bonds: 0,
        presence: 0,
    }
}

// What is said of an accepted file: its counts and its fields.
fn accepted_with(counts: Counts, presence: u64) -> Summary
    requires { Small counts }
    ensures { result ≡ accepted_with counts presence }
{
    Summary {
        verdict: refusal::ACCEPTED,
        models: counts.models as u32,
        chains: counts.chains as u32,
        groups: counts.groups as u32,
        atoms: counts.atoms as u32,
        bonds: counts.bonds as u32,
        presence,
    }
}

// The refusal of a container's document by what is noted of its fields: 12 to 24.
pub fn document_refusal(file: &[u8], noted: Fields) -> Result<(), Refusal>
    ensures { WalkedNotes file.now noted (λ es. number_of result ≡ entries_number es) }
{
    fields::refusal_of(file, noted)?;
    file_columns::columns_refusal(file, &noted.places)?;
    counts::refusal_of(file, &noted.places)
}
