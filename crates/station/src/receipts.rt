// The receipt of a file, and the verdict that it has: the file is judged once.
ghost use Rattle.std.specs.Prelude.{◌≡◌};
ghost use Rattle.receipt.specs.Reading.{reading_of};
ghost use Rattle.station.specs.Receipts.{verdict_in, MadeOf};

use refusal::Refusal;

// A receipt that was made: how many bytes it has, and the verdict in it.
#[derive(Clone, Copy)]
pub struct Made {
    pub bytes: usize,
    pub verdict: u8,
}

// Makes the receipt of a file in a buffer.
pub(crate) fn make(station: u32, job: u32, file: &[u8], buffer: &mut [u8]) -> Result<Made, Refusal>
    ensures { MadeOf station job file.now buffer.new result }
{
    let bytes = receipt::write(station, job, file, buffer)?;
    Ok(Made {
        bytes,
        verdict: verdict_in(&buffer[..bytes]),
    })
}

// The verdict in a receipt. It is a number, since it is read from a text; a receipt that is refused has the number of the refusal.
fn verdict_in(bytes: &[u8]) -> u8
    ensures { result ≡ verdict_in (reading_of bytes.now) }
{
    match receipt::read(bytes) {
        Ok(receipt) => numbers::low_byte(receipt.verdict),
        Err(refusal) => refusal.number(),
    }
}
