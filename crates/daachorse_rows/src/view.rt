//! An automaton with rows, as searches see it.

ghost use Rattle.std.specs.Prelude.{◌≡◌, ◌+◌, ◌*◌, ◌<◌, slice_index};
ghost use Rattle.daachorse_rows.specs.Rows.{AreRows, IsCell, SharesText, StandsFor, stands_by, state_at};

use crate::label::{RowLabel, SLOTTED};
use crate::making::{NO_ROW, OUTSIDE};
use daachorse_core::Output;
use daachorse_core::turns::{Look, Turns};
use daachorse_search::automaton::Automaton;
use std::marker::{Model, PhantomData};
use std::num::NonZeroU32;

/// An automaton, and rows of some of its states.
///
/// A state is given by its cell, which is two slots: the first of its row, if it has one, or that
/// of its number after all rows.
#[derive(Drop)]
pub struct RowView<'a, V: Copy, A: Automaton<V>>
where
    A::Label: RowLabel,
{
    automaton: A,
    // The slot of each label that has one, by its number.
    classes: &'a [u16],
    // The slots. The first two of a row hold its state.
    top: &'a [u16],
    // The row of each state.
    homes: &'a [u16],
    // For contracts alone.
    count: u32,
    width: u32,
    root: u32,
    of: PhantomData<V>,
}

impl<'a, V: Copy, A: Automaton<V>> Model for RowView<'a, V, A>
where
    A::Label: RowLabel,
{
    ghost use Rattle.daachorse_rows.specs.Rows.{AreRows, Rowed, stands_by};

    ghost Value = { Rowed A };

    ghost view = { λ s. record { automaton = s.automaton; rows = record { classes = s.classes.now; top = s.top.now; homes = s.homes.now; count = s.count; width = s.width; root = s.root } } };

    ghost invariant = { λ s. AreRows A.Unit.width (A.sees s.automaton) (stands_by A.Label.number (A.labels s.automaton))
        (record { classes = s.classes.now; top = s.top.now; homes = s.homes.now; count = s.count; width = s.width; root = s.root }) };
}

impl<'a, V: Copy, A: Automaton<V>> RowView<'a, V, A>
where
    A::Label: RowLabel,
{
    /// The view of these tables.
    #[inline(always)]
    pub(crate) fn new(
        automaton: A,
        classes: &'a [u16],
        top: &'a [u16],
        homes: &'a [u16],
        count: u32,
        width: u32,
        root: u32,
    ) -> Self
        requires { AreRows A.Unit.width (A.sees automaton) (stands_by A.Label.number (A.labels automaton))
            (record { classes = classes.now; top = top.now; homes = homes.now; count = count; width = width; root = root }) }
        ensures { result ≡ record { automaton = automaton; rows = record { classes = classes.entry.now; top = top.entry.now; homes = homes.entry.now; count = count; width = width; root = root } } }
    {
        Self {
            automaton,
            classes,
            top,
            homes,
            count,
            width,
            root,
            of: PhantomData,
        }
    }

    /// Where the rows end and the cells of other states begin. Its contract says that the rows are
    /// right.
    #[inline(always)]
    fn end(&self) -> usize
        ensures end { result ≡ self.now.rows.count * self.now.rows.width }
        ensures right { AreRows A.Unit.width (A.sees self.now.automaton) (stands_by A.Label.number (A.labels self.now.automaton)) self.now.rows }
    {
        self.top.len() / 2
    }

    /// The state of a cell.
    #[inline(always)]
    fn state(&self, cell: u32) -> u32
        requires { (A.sees self.now.automaton).reached (state_at self.now.rows.top cell) }
        ensures { result ≡ state_at self.now.rows.top cell }
    {
        let cell = cell as usize;
        if cell < self.end() {
            let low = self.top[2 * cell];
            let high = self.top[2 * cell + 1];
            return low as u32 + 65_536 * high as u32;
        }
        (cell - self.end()) as u32
    }

    /// The cell of a state.
    #[inline(always)]
    fn cell(&self, state: u32) -> u32
        ensures { (A.sees self.now.automaton).reached state → StandsFor self.now.rows result state }
    {
        let index = state as usize;
        if index < self.homes.len() && self.homes[index] != NO_ROW {
            return self.homes[index] as u32 * self.width;
        }
        (self.end() as u32).wrapping_add(state)
    }

    /// The slot of the label `number` in the row that begins at a cell.
    // The column is found first, so that one load alone waits for the cell.
    #[inline(always)]
    fn slot(&self, cell: usize, number: usize) -> u32
        requires cell { IsCell self.now.rows cell }
        requires inside { cell < self.now.rows.count * self.now.rows.width }
        requires label { number < 638 }
        ensures { result ≡ slice_index self.now.rows.top (2 * cell + slice_index self.now.rows.classes number) }
    {
        let column = &self.top[self.classes[number] as usize..];
        column[2 * cell] as u32
    }

    /// The cell of a state at which a look outside the rows ends a step. No row is looked for: the
    /// states with rows, but for the root, are reached from rows.
    #[inline(always)]
    fn cell_below(&self, state: u32) -> u32
        ensures { (A.sees self.now.automaton).reached state → SharesText (A.sees self.now.automaton) self.now.rows result state }
    {
        if state == self.automaton.root() {
            return self.root;
        }
        (self.end() as u32).wrapping_add(state)
    }
}

impl<'a, V: Copy, A: Automaton<V>> Automaton<V> for RowView<'a, V, A>
where
    A::Label: RowLabel,
{
    ghost use Rattle.daachorse_rows.specs.Rows.{over_rows};

    type Unit = A::Unit;

    type Label = A::Label;

    ghost sees = { λ p. over_rows A.Label.most (A.sees p.automaton) (stands_by A.Label.number (A.labels p.automaton)) p.rows };

    ghost labels = { λ p. A.labels p.automaton };

    #[inline(always)]
    fn root(&self) -> u32 {
        // A field is read, so that the type's invariant is known here.
        let _ = &self.top;
        self.root
    }

    #[inline(always)]
    fn is_root(&self, state: u32) -> bool {
        self.automaton.is_root(self.state(state))
    }

    #[inline(always)]
    fn label(&self, unit: A::Unit) -> Option<A::Label> {
        self.automaton.label(unit)
    }

    #[inline(always)]
    fn turn(&self, state: u32, label: A::Label, turns: &mut Turns) -> Look {
        let cell = state as usize;
        let number = label.index();
        if cell < self.end() && number < SLOTTED as usize {
            let entry = self.slot(cell, number);
            if entry % 2 == 0 {
                turns.tick();
                return Look::Next(entry, None);
            }
            if entry != OUTSIDE as u32 {
                turns.tick();
                let next = entry - 1;
                return Look::Next(next, self.output_pos(next));
            }
        }
        match self.automaton.turn(self.state(state), label, turns) {
            Look::Next(next, position) => Look::Next(self.cell_below(next), position),
            Look::Fail(link) => Look::Fail(self.cell(link)),
        }
    }

    #[inline(always)]
    fn output_pos(&self, state: u32) -> Option<NonZeroU32> {
        self.automaton.output_pos(self.state(state))
    }

    #[inline(always)]
    fn output(&self, position: NonZeroU32) -> Output<V> {
        self.automaton.output(position)
    }

    #[inline(always)]
    fn again(&self) -> Self {
        Self {
            automaton: self.automaton.again(),
            classes: self.classes,
            top: self.top,
            homes: self.homes,
            count: self.count,
            width: self.width,
            root: self.root,
            of: PhantomData,
        }
    }

    ghost no_output = { λ p. A.no_output p.automaton };
}
