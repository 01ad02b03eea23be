// The value of a field as text on standard output.
use crate::output;
use std::io::Result;

// Writes the integer or the float that a value is.
pub(crate) fn write_item(rt: HostRuntime, value: &[u8]) -> Result<()> {
    let mut buffer = output::room();
    let n = commands::texts::put_item(&mut buffer, 0, value, 0);
    output::write_first(rt, &buffer, n)
}

// Writes the string that a value is.
pub(crate) fn write_string(rt: HostRuntime, value: &[u8]) -> Result<()> {
    let mut buffer = output::room();
    let n = lines::single::put_string(&mut buffer, 0, value);
    output::write_first(rt, &buffer, n)
}

// Writes the values of the array that a value is, a line each.
pub(crate) fn write_items(rt: HostRuntime, value: &[u8]) -> Result<()> {
    let mut buffer = output::room();
    let mut at: usize = 0;
    let mut p = views::plain::head_end(value, 0);
    for _ in 0..views::plain::number_at(value, 0) {
        if output::is_full(at) {
            output::write_first(rt, &buffer, at)?;
            at = 0;
        }
        at = commands::texts::put_item(&mut buffer, at, value, p);
        p = commands::texts::item_end(value, p);
    }
    output::write_first(rt, &buffer, at)
}
