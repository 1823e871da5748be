//! Whether the links and the output positions of an array are in range.

ghost use Rattle.std.specs.Prelude.{◌<◌, ◌↔◌, IsTrue};
ghost use Rattle.daachorse_checker.specs.Sound.{IsInRange};

use daachorse_array::array::Array;

/// Whether each link is an element and each position is at most `num_outputs`. Elements that no
/// text leads to count too.
pub fn ranges_hold<E: Array>(array: &E, num_outputs: usize) -> bool
    ensures { let view = E.sees array.now in IsTrue result ↔ IsInRange view.fail view.first view.count num_outputs }
{
    let count = array.num_elements();
    for element in 0..count {
        if array.fail(element) as usize >= count {
            return false;
        }
        if array.first(element) as usize > num_outputs {
            return false;
        }
    }
    true
}
