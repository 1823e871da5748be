//! Which searches a view serves: standard or leftmost.

ghost use Rattle.std.specs.Prelude.{◌≡◌, Bool, true, false};

/// The searches that a view is for.
pub trait Searches {
    /// Whether they are leftmost.
    ghost leftmost: { Bool };

    /// Whether they are leftmost, so that failure links may be dead.
    fn are_leftmost() -> bool
        ensures { result ≡ leftmost };
}

/// The standard searches.
#[derive(Clone, Copy, Debug)]
pub struct ForStandard;

impl Searches for ForStandard {
    ghost leftmost = { false };

    #[inline(always)]
    fn are_leftmost() -> bool {
        false
    }
}

/// The leftmost searches.
#[derive(Clone, Copy, Debug)]
pub struct ForLeftmost;

impl Searches for ForLeftmost {
    ghost leftmost = { true };

    #[inline(always)]
    fn are_leftmost() -> bool {
        true
    }
}
