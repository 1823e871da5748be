//! How rows are made: which states have one, and what is written into it.
//!
//! The states are those nearest to the root, breadth-first.
#![tactic(auto, using(daachorse_core::proofs::Failures::failures))]

ghost use Rattle.std.specs.Prelude.{◌≡◌, ◌⊎◌, ◌*◌, ◌+◌, ◌<◌, ◌≤◌, ◌^◌, ℕ, [], length, map, slice_index, IfOk, IfSome, MatchOption, OnOk, None};
ghost use Rattle.daachorse_search.specs.Views.{HasFirst};
ghost use Rattle.daachorse_rows.specs.Rows.{AreChosen, AreShallow, AreSlots, AreStepped, AreTooMany, AreWritten, EndsInRow, GoesOn, HaveRows, IsChoice, IsEntry, IsRound, IsSlot, IsSlotOf, Leads, Stands, StepsAs, labelled, most_rows};

use crate::label::{RowLabel, SLOTTED};
use daachorse_core::turns::{Look, Turns};
use daachorse_search::automaton::Automaton;
use daachorse_search::walk::follow;
use std::alloc::{AllocError, Allocator};
use std::marker::{Model, PhantomData};
use std::num::NonZeroU32;

/// The most cells in rows, of two slots each. With the slots of the labels, rows take 248 KiB.
const CELLS: u32 = 63_168;

/// In place of the row of a state that has none.
pub(crate) const NO_ROW: u16 = 65_535;

/// The slot of a step that leaves the rows.
pub(crate) const OUTSIDE: u16 = 65_535;

/// An automaton of more states gets no rows, since each cell has to be below 2^32.
const MOST_STATES: u32 = 4_294_901_760;

/// The slot, in a row, of the label of a number: 2 for all labels that are not listed.
fn slot_of<T: RowLabel>(labels: &[T], number: usize) -> u16
    requires { length labels.now ≤ 638 }
    ensures { IsSlotOf (map T.number labels.now) number result }
{
    for k in 0..labels.len() {
        if labels[k].index() == number {
            return 3 + k as u16;
        }
    }
    2
}

/// The slot of each label, by its number.
pub(crate) fn slots_of<T: RowLabel, L: Allocator>(
    alloc: L,
    labels: &[T],
) -> Result<Vec<u16, L>, AllocError>
    requires { length labels.now ≤ 638 }
    ensures { IfOk result (λ v. AreSlots (map T.number labels.now) 638 v.items) }
{
    let mut slots = Vec::with_capacity(alloc, SLOTTED as usize)?;
    for number in 0..SLOTTED as usize {
        slots.push(slot_of(labels, number))?;
    }
    Ok(slots)
}

/// The states that have rows.
#[derive(Drop)]
pub(crate) struct Chosen<L: Allocator> {
    // In the order of their rows.
    pub(crate) order: Vec<u32, L>,
    // The row of each state, or `NO_ROW`.
    pub(crate) homes: Vec<u16, L>,
}

impl<L: Allocator> Chosen<L> {
    /// Where the rows end and the cells of other states begin.
    fn end(&self, width: u32) -> u32
        requires { HaveRows self.now.order.items self.now.homes.items width }
        ensures { result ≡ length self.now.order.items * width }
    {
        self.order.len() as u32 * width
    }

    /// The cell of a state.
    pub(crate) fn cell(&self, state: u32, width: u32) -> u32
        requires rows { HaveRows self.now.order.items self.now.homes.items width }
        requires fits { state + 65536 < 2 ^ 32 }
        ensures { Stands self.now.order.items width result state }
    {
        let index = state as usize;
        if index < self.homes.len() && self.homes[index] != NO_ROW {
            return self.homes[index] as u32 * width;
        }
        self.end(width) + state
    }

    /// The slot of a step to this state, whose outputs begin at `position`: its cell, which is
    /// even, plus 1 if there are outputs.
    fn entry(&self, state: u32, position: Option<NonZeroU32>, width: u32) -> u16
        requires rows { HaveRows self.now.order.items self.now.homes.items width }
        requires fits { state + 65536 < 2 ^ 32 }
        ensures { IsEntry self.now.order.items width state (position ≡ None) result }
    {
        let cell = self.cell(state, width);
        if cell >= self.end(width) {
            return OUTSIDE;
        }
        match position {
            None => cell as u16,
            Some(_) => cell as u16 + 1,
        }
    }
}

/// Makes rows of the states of an automaton.
#[derive(Drop)]
pub(crate) struct Maker<'a, V: Copy, A: Automaton<V>, L: Allocator + Copy>
where
    A::Label: RowLabel,
{
    pub(crate) alloc: L,
    pub(crate) automaton: &'a A,
    // Those that are listed.
    pub(crate) labels: &'a [A::Label],
    // How many cells a row has.
    pub(crate) width: u32,
    pub(crate) of: PhantomData<V>,
}

impl<'a, V: Copy, A: Automaton<V>, L: Allocator + Copy> Model for Maker<'a, V, A, L>
where
    A::Label: RowLabel,
{
    ghost use Rattle.std.specs.Prelude.{map};
    ghost use Rattle.daachorse_rows.specs.Rows.{AreLabelled, Listed, labelled};

    ghost Value = { Listed A };

    ghost view = { λ s. record { automaton = s.automaton.now; labels = map A.Label.number s.labels.now; width = s.width } };

    ghost invariant = { λ s. AreLabelled (labelled A.sees A.labels A.Label.number (record { automaton = s.automaton.now; labels = map A.Label.number s.labels.now; width = s.width })) };
}

impl<'a, V: Copy, A: Automaton<V>, L: Allocator + Copy> Maker<'a, V, A, L>
where
    A::Label: RowLabel,
{
    /// The states that get rows, as many as there is room for. `None` if the states are too many,
    /// or those whose texts have at most two units with a slot.
    pub(crate) fn choose(&self, count: u32) -> Result<Option<Chosen<L>>, AllocError>
        requires { (s : ℕ) → (A.sees self.now.automaton).reached s → s < count }
        ensures { let seen = labelled A.sees A.labels A.Label.number self.now in IfOk result (λ chosen. MatchOption chosen
            (AreTooMany seen.view seen.stands 2 (most_rows seen) ⊎ (4294901760 < count)) (λ c. IsChoice seen c.order.items c.homes.items)) }
    {
        // A field is read, so that the type's invariant is known here.
        let _ = &self.labels;
        if count > MOST_STATES {
            return Ok(None);
        }
        let mut chosen = self.choose_root(count)?;
        if !self.choose_next(&mut chosen)? {
            return Ok(None);
        }
        let near = chosen.order.len();
        if !self.choose_next(&mut chosen)? {
            return Ok(None);
        }
        self.choose_rest(&mut chosen, near)?;
        Ok(Some(chosen))
    }

    /// Adds the row of the root.
    fn choose_root(&self, count: u32) -> Result<Chosen<L>, AllocError>
        requires count { (s : ℕ) → (A.sees self.now.automaton).reached s → s < count }
        requires fits { count ≤ 4294901760 }
        ensures { IfOk result (λ c. AreChosen (labelled A.sees A.labels A.Label.number self.now) c.order.items c.homes.items × (length c.order.items ≡ 1) × ((A.sees self.now.automaton).text (slice_index c.order.items 0) ≡ [])) }
    {
        let mut order = Vec::new(self.alloc);
        let mut homes = Vec::from_elem(self.alloc, NO_ROW, count as usize)?;
        let root = self.automaton.root();
        homes[root as usize] = 0;
        order.push(root)?;
        Ok(Chosen { order, homes })
    }

    /// Adds rows for the successors of all states that have rows. Returns whether there was room.
    fn choose_next(&self, chosen: &mut Chosen<L>) -> Result<bool, AllocError>
        requires chosen { AreChosen (labelled A.sees A.labels A.Label.number self.now) chosen.old.order.items chosen.old.homes.items }
        requires root { (0 < length chosen.old.order.items) × ((A.sees self.now.automaton).text (slice_index chosen.old.order.items 0) ≡ []) }
        ensures { IfOk result (IsRound (labelled A.sees A.labels A.Label.number self.now) chosen.old.order.items chosen.new.order.items chosen.new.homes.items (length chosen.old.order.items)) }
    {
        for at in 0..chosen.order.len() {
            if !self.choose_ends(chosen, at)? {
                return Ok(false);
            }
        }
        Ok(true)
    }

    /// Adds rows breadth-first while there is room. All successors of rows before `from` have one.
    fn choose_rest(&self, chosen: &mut Chosen<L>, from: usize) -> Result<(), AllocError>
        requires chosen { AreChosen (labelled A.sees A.labels A.Label.number self.now) chosen.old.order.items chosen.old.homes.items }
        requires from { from ≤ length chosen.old.order.items }
        requires stepped { AreStepped (labelled A.sees A.labels A.Label.number self.now) from chosen.old.order.items }
        ensures chosen { OnOk result (AreChosen (labelled A.sees A.labels A.Label.number self.now) chosen.new.order.items chosen.new.homes.items × GoesOn chosen.old.order.items chosen.new.order.items) }
        ensures ends { let seen = labelled A.sees A.labels A.Label.number self.now in OnOk result ((n : ℕ) → AreShallow seen n chosen.old.order.items
            → AreStepped seen (length chosen.new.order.items) chosen.new.order.items ⊎ ((m : ℕ) × AreTooMany seen.view seen.stands m (most_rows seen))) }
    {
        let mut at = from;
        while at < chosen.order.len() {
            if !self.choose_ends(chosen, at)? {
                return Ok(());
            }
            at += 1;
        }
        Ok(())
    }

    /// Adds rows for the successors of row `at` while there is room, and returns whether there was.
    /// All successors of earlier rows have one.
    fn choose_ends(&self, chosen: &mut Chosen<L>, at: usize) -> Result<bool, AllocError>
        requires chosen { AreChosen (labelled A.sees A.labels A.Label.number self.now) chosen.old.order.items chosen.old.homes.items }
        requires at { at < length chosen.old.order.items }
        requires stepped { AreStepped (labelled A.sees A.labels A.Label.number self.now) at chosen.old.order.items }
        ensures { IfOk result (IsRound (labelled A.sees A.labels A.Label.number self.now) chosen.old.order.items chosen.new.order.items chosen.new.homes.items (at + 1)) }
    {
        let most = (CELLS / self.width) as usize;
        for k in 0..self.labels.len() {
            if let Some(next) = self.end_outside(chosen, at, k) {
                if chosen.order.len() == most {
                    return Ok(false);
                }
                chosen.homes[next as usize] = chosen.order.len() as u16;
                chosen.order.push(next)?;
            }
        }
        Ok(true)
    }

    /// The state at which the step by a listed label from row `at` ends, if it has no row.
    #[inline(always)]
    fn end_outside(&self, chosen: &Chosen<L>, at: usize, k: usize) -> Option<u32>
        requires chosen { AreChosen (labelled A.sees A.labels A.Label.number self.now) chosen.now.order.items chosen.now.homes.items }
        requires at { at < length chosen.now.order.items }
        requires k { k < length self.now.labels }
        requires stepped { AreStepped (labelled A.sees A.labels A.Label.number self.now) at chosen.now.order.items }
        ensures { let seen = labelled A.sees A.labels A.Label.number self.now in let state = slice_index chosen.now.order.items at in MatchOption result
            (EndsInRow seen state k chosen.now.order.items) (λ next. Leads seen state k next × (slice_index chosen.now.homes.items next ≡ 65535)) }
    {
        if let Some(_before) = self.linked_row(chosen, at, k) {
            return None;
        }
        let (next, _) = self.step(chosen, at, k);
        if chosen.homes[next as usize] == NO_ROW {
            return Some(next);
        }
        None
    }

    /// The row of the link at a listed label from a row's state, if it is an earlier row. The step
    /// ends as from there.
    #[inline(always)]
    fn linked_row(&self, chosen: &Chosen<L>, row: usize, k: usize) -> Option<usize>
        requires chosen { AreChosen (labelled A.sees A.labels A.Label.number self.now) chosen.now.order.items chosen.now.homes.items }
        requires row { row < length chosen.now.order.items }
        requires k { k < length self.now.labels }
        ensures { IfSome result (λ j. (j < row) × StepsAs (labelled A.sees A.labels A.Label.number self.now) (slice_index chosen.now.order.items row) k (slice_index chosen.now.order.items j)) }
    {
        let mut turns = Turns::new();
        let look = self
            .automaton
            .turn(chosen.order[row], self.labels[k], &mut turns);
        if let Look::Fail(link) = look {
            let index = link as usize;
            if index < chosen.homes.len() && (chosen.homes[index] as usize) < row {
                return Some(chosen.homes[index] as usize);
            }
        }
        None
    }

    /// The end of the step by a listed label from a row's state, with the first output there.
    #[inline(always)]
    fn step(&self, chosen: &Chosen<L>, row: usize, k: usize) -> (u32, Option<NonZeroU32>)
        requires chosen { AreChosen (labelled A.sees A.labels A.Label.number self.now) chosen.now.order.items chosen.now.homes.items }
        requires row { row < length chosen.now.order.items }
        requires k { k < length self.now.labels }
        ensures leads { Leads (labelled A.sees A.labels A.Label.number self.now) (slice_index chosen.now.order.items row) k result.0 }
        ensures output { HasFirst A.Unit.width (A.sees self.now.automaton) result.0 result.1 }
    {
        let state = chosen.order[row];
        follow(self.automaton, state, self.labels[k], &mut Turns::new())
    }

    /// The slots of the rows.
    pub(crate) fn write(&self, chosen: &Chosen<L>) -> Result<Vec<u16, L>, AllocError>
        requires { AreChosen (labelled A.sees A.labels A.Label.number self.now) chosen.now.order.items chosen.now.homes.items }
        ensures { IfOk result (λ top. AreWritten A.Unit.width (labelled A.sees A.labels A.Label.number self.now) chosen.now.order.items (length chosen.now.order.items) 0 top.items) }
    {
        let mut top = Vec::with_capacity(self.alloc, 2 * chosen.end(self.width) as usize)?;
        for row in 0..chosen.order.len() {
            self.write_row(chosen, row, &mut top)?;
        }
        Ok(top)
    }

    /// Writes a row: its state, the root for labels that are not listed, and the end of the step by
    /// each listed label. The rest of its cells is filled up.
    fn write_row(
        &self,
        chosen: &Chosen<L>,
        row: usize,
        top: &mut Vec<u16, L>,
    ) -> Result<(), AllocError>
        requires chosen { AreChosen (labelled A.sees A.labels A.Label.number self.now) chosen.now.order.items chosen.now.homes.items }
        requires row { row < length chosen.now.order.items }
        requires written { AreWritten A.Unit.width (labelled A.sees A.labels A.Label.number self.now) chosen.now.order.items row 0 top.old.items }
        ensures { OnOk result (AreWritten A.Unit.width (labelled A.sees A.labels A.Label.number self.now) chosen.now.order.items (row + 1) 0 top.new.items) }
    {
        let state = chosen.order[row];
        let root = self.automaton.root();
        let position = self.automaton.output_pos(root);
        top.push((state % 65_536) as u16)?;
        top.push((state / 65_536) as u16)?;
        top.push(chosen.entry(root, position, self.width))?;
        for k in 0..self.labels.len() {
            let entry = self.step_entry(chosen, row, k, top.as_slice());
            top.push(entry)?;
        }
        top.resize(2 * (row + 1) * self.width as usize, OUTSIDE)?;
        Ok(())
    }

    /// The slot of a listed label in a row: the end of the step from the row's state. If it ends as
    /// from an earlier row, the slot of that row is copied.
    #[inline(always)]
    fn step_entry(&self, chosen: &Chosen<L>, row: usize, k: usize, top: &[u16]) -> u16
        requires chosen { AreChosen (labelled A.sees A.labels A.Label.number self.now) chosen.now.order.items chosen.now.homes.items }
        requires row { row < length chosen.now.order.items }
        requires k { k < length self.now.labels }
        requires written { AreWritten A.Unit.width (labelled A.sees A.labels A.Label.number self.now) chosen.now.order.items row (3 + k) top.now }
        ensures { IsSlot A.Unit.width (labelled A.sees A.labels A.Label.number self.now) chosen.now.order.items row (3 + k) result }
    {
        if let Some(before) = self.linked_row(chosen, row, k) {
            return top[2 * (before * self.width as usize) + 3 + k];
        }
        let (next, position) = self.step(chosen, row, k);
        chosen.entry(next, position, self.width)
    }
}
