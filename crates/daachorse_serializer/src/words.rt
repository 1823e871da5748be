//! The bytes of several numbers of 32 bits together, so that appending them checks the room once.

ghost use Rattle.std.specs.Prelude.{◌≡◌, ◌++◌};
ghost use Rattle.std.specs.Int.{w32};
ghost use Rattle.daachorse_serializer.specs.Forms.{number_form};

/// The bytes of two numbers.
#[inline(always)]
#[tactic(auto, unfolding(crate::specs::Forms::number_form))]
pub fn two_words(first: u32, second: u32) -> [u8; 8]
    ensures { result ≡ number_form w32 first ++ number_form w32 second }
{
    let [a0, a1, a2, a3] = first.to_le_bytes();
    let [b0, b1, b2, b3] = second.to_le_bytes();
    [a0, a1, a2, a3, b0, b1, b2, b3]
}

/// The bytes of three numbers.
#[inline(always)]
#[tactic(auto, unfolding(crate::specs::Forms::number_form))]
pub fn three_words(first: u32, second: u32, third: u32) -> [u8; 12]
    ensures { result ≡ number_form w32 first ++ (number_form w32 second ++ number_form w32 third) }
{
    let [a0, a1, a2, a3] = first.to_le_bytes();
    let [b0, b1, b2, b3, c0, c1, c2, c3] = two_words(second, third);
    [a0, a1, a2, a3, b0, b1, b2, b3, c0, c1, c2, c3]
}

/// The bytes of four numbers.
#[inline(always)]
#[tactic(auto, unfolding(crate::specs::Forms::number_form))]
pub fn four_words(first: u32, second: u32, third: u32, fourth: u32) -> [u8; 16]
    ensures { result ≡ number_form w32 first ++ (number_form w32 second ++ (number_form w32 third ++ number_form w32 fourth)) }
{
    let [a0, a1, a2, a3, b0, b1, b2, b3] = two_words(first, second);
    let [c0, c1, c2, c3, d0, d1, d2, d3] = two_words(third, fourth);
    [
        a0, a1, a2, a3, b0, b1, b2, b3, c0, c1, c2, c3, d0, d1, d2, d3,
    ]
}
