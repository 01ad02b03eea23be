// The value under a key of a map, by its place in a file. Any bytes and any place are taken, and a meaning is promised for a file that has been
// walked (`Walked.antt` of values).
ghost use Rattle.values.specs.Parts.{entries_of, look};
ghost use Rattle.values.specs.Places.{PlaceSays};
ghost use Rattle.values.specs.Walked.{Walked, WalkedEntries};

// The place of the value under a name in the map at a place; 0, where no value stands, if there is none. It stays a number, since `PlaceSays` and
// the tables of places of `fields` have 0 for a value that is not there.
pub fn find(file: &[u8], at: usize, name: &[u8]) -> usize
    ensures { Walked file.now at (λ x e. PlaceSays file.now result (look name.now (entries_of x))) }
{
    let part = crate::entries_at(file, at);
    find_from(file, part.count, part.at, name)
}

// The place of the value under a name among n entries from a place on.
fn find_from(file: &[u8], n: usize, at: usize, name: &[u8]) -> usize
    ensures { WalkedEntries file.now n at (λ es e. PlaceSays file.now result (look name.now es)) }
{
    let mut p = at;
    for _i in 0..n {
        let key = crate::key_at(file, p);
        let value = key.at + key.count;
        if text::same_bytes(&file[key.at..value], name) {
            return value;
        }
        p = crate::skip(file, value);
    }
    0
}
