//! Copies to the fronts of arrays that C owns.

ghost use Rattle.std.specs.Prelude.{◌≡◌, ◌<◌, ◌≤◌, ◌++◌, IfErr, OnErr, OnOk, drop, length};
ghost use Rattle.daachorse_c.specs.declared.refusal.Refusal.TheVariants.{NoRoom};

use crate::refusal::Refusal;

/// Copies the bytes to the front of `out`, if there is room for all of them.
pub(crate) fn copy_to_front(bytes: &[u8], out: &mut [u8]) -> Result<(), Refusal>
    ensures copied { OnOk result (out.new ≡ bytes.now ++ drop (length bytes.now) out.old) }
    ensures fits { OnOk result (length bytes.now ≤ length out.old) }
    ensures err { IfErr result (λ r. (r ≡ NoRoom) × (length out.old < length bytes.now)) }
    ensures unwritten { OnErr result (out.new ≡ out.old) }
{
    if out.len() < bytes.len() {
        return Err(Refusal::NoRoom);
    }
    put_in_front(bytes, out);
    Ok(())
}

/// Copies items to the front of `out`.
pub(crate) fn put_in_front<T: Copy>(items: &[T], out: &mut [T])
    requires { length items.now ≤ length out.old }
    ensures { out.new ≡ items.now ++ drop (length items.now) out.old }
{
    out[..items.len()].copy_from_slice(items);
}
