//! What searches over characters go through: the states of an automaton as they are.

ghost use Rattle.std.specs.Prelude.{◌≡◌, ◌≢◌, None};
ghost use Rattle.daachorse_model.specs.declared.MatchKind.TheVariants.{Standard};

use super::{Plain, states};
use daachorse_core::MatchKind;
use daachorse_core::errors::Result;
use daachorse_haystack::text::Text;
use daachorse_prefilter::skipping::Skipping;
use daachorse_streams::searched::{Lends, Searched};
use daachorse_streams::stream_marks::StreamMarks;
use std::alloc::Allocator;

impl<V: Copy, A: Allocator + Copy> Searched for Plain<V, A> {
    ghost use Rattle.std.specs.Prelude.{None, refl};
    ghost use Rattle.daachorse_charwise_states.specs.Valid.{sees};
    ghost use Rattle.daachorse.specs.charwise.Automata.{dictionary_of, kind_of, states_of};

    type Unit = char;

    type Value = V;

    type Alloc = A;

    ghost dictionary = { λ a. dictionary_of a };

    ghost kind = { λ a. kind_of a };

    ghost folds = { λ a. a.folds };

    ghost filter = { λ a. a.filter };

    ghost buckets = { λ a. None };

    ghost depths = { λ a. a.depths };

    ghost view = { λ a. sees (states_of a) };

    fn match_kind(&self) -> MatchKind {
        self.states.kind()
    }

    #[inline(always)]
    fn is_ascii_case_insensitive(&self) -> bool {
        self.folds
    }

    fn num_states(&self) -> usize {
        self.states.num_states() as usize
    }

    #[inline(always)]
    fn skipping<'s>(&'s self) -> Skipping<'s, A> {
        Skipping::new(self.filter.as_ref())
    }

    fn allocator(&self) -> A {
        *self.depths.allocator()
    }

    fn longest_pattern(&self) -> Result<usize> {
        self.states.longest(self.allocator())
    }

    fn stream_marks(&self, alloc: A) -> Result<StreamMarks<A>> {
        let longest = self.longest_pattern()?;
        let children = self.states.child_marks(alloc)?;
        Ok(StreamMarks { children, longest })
    }

    ghost view_content = { λ s. refl };
}

impl<'a, V: Copy + 'a, A: Allocator + Copy + 'a> Lends<'a> for Plain<V, A> {
    ghost use Rattle.std.specs.Prelude.{refl};
    ghost use Rattle.std.specs.Str.{chars};
    ghost use Rattle.daachorse.specs.charwise.Automata.{states_of};
    ghost use Rattle.daachorse_charwise_states.proofs.DeadLaws.{alive, is_leftmost_automaton};

    type Text = &'a str;

    type Haystack = Text<'a>;

    type Filter = Skipping<'a, A>;

    type Standard = states::Standard<'a, V>;

    type Leftmost = states::Leftmost<'a, V>;

    type Marked = states::Leftmost<'a, V>;

    ghost units = { λ text. chars text.now };

    ghost asked = { λ filter. filter };

    ghost states = { λ a. states_of a };

    ghost leftmost_states = { λ a. states_of a };

    ghost marked_states = { λ a. states_of a };

    #[inline(always)]
    fn haystack(&self, text: &'a str) -> Text<'a> {
        Text::new(text, self.folds)
    }

    #[inline(always)]
    fn lend_filter(&'a self) -> Skipping<'a, A> {
        self.skipping()
    }

    #[inline(always)]
    fn standard(&'a self) -> states::Standard<'a, V> {
        self.states.standard()
    }

    #[inline(always)]
    fn depths(&'a self) -> &'a [u32] {
        &self.depths
    }

    #[inline(always)]
    fn leftmost(&'a self) -> states::Leftmost<'a, V> {
        self.states.leftmost()
    }

    #[inline(always)]
    fn marked(&'a self) -> states::Leftmost<'a, V> {
        self.states.leftmost()
    }

    ghost content = { λ s. refl };

    ghost leftmost_content = { λ s. refl };

    ghost alive = { λ s kind. alive (states_of s) kind };

    ghost dead = { λ s kind. is_leftmost_automaton (states_of s) kind };
}
