// The keeper's list of pins that are out: the time of each at its number.
ghost use Rattle.std.specs.Prelude.{◌≡◌, ◌<◌, None, Some, ◌≤◌, length, slice_get, slice_set, IfOk, OnErr, vec_len};
ghost use Rattle.history_board.specs.Pins.{IsFree, put_out};

use base_core::Want;

// The first number that no pin has.
fn free_number(out: &[Option<u64>]) -> usize
    ensures { IsFree out.now result }
{
    for (number, time) in out.iter().enumerate() {
        if time.is_none() {
            return number;
        }
    }
    out.len()
}

// Writes the time of a new pin at a number that was free, and answers the number.
pub(crate) fn put(out: &mut Vec<Option<u64>>, time: u64) -> Result<u64, Want>
    ensures free { IfOk result (λ number. IsFree out.old.items number) }
    ensures put { IfOk result (λ number. out.new.items ≡ put_out out.old.items number time) }
    ensures err { OnErr result (out.new.items ≡ out.old.items) }
{
    let number = free_number(out.as_slice());
    if number < out.len() {
        out[number] = Some(time);
    } else {
        out.push(Some(time))?;
    }
    Ok(number as u64)
}

// Frees the number of a pin.
pub(crate) fn take(out: &mut Vec<Option<u64>>, number: u64)
    ensures { out.new.items ≡ slice_set out.old.items number None }
{
    if let Some(time) = out.get_mut(number as usize) {
        *time = None;
    }
}
