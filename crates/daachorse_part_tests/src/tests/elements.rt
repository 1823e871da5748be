//! The elements of both double arrays: their parts, and their written forms.

use super::expect;
use super::forms::has_form;
use daachorse_bytewise_states::state::State;
use daachorse_charwise_states::state::State as CharacterState;
use daachorse_core::Empty;
use daachorse_core::errors::Result;
use std::alloc::Global;
use std::num::NonZeroU32;
use std::test::Fail;

/// An element over bytes. A base or a position of 0 stands for none.
fn element(base: u32, check: u8, fail: u32, position: u32) -> Result<State<u32>> {
    let mut element = State::default();
    if let Some(base) = NonZeroU32::new(base) {
        element.set_base(base);
    }
    element.set_check(check);
    element.set_fail(fail);
    element.set_output_pos(NonZeroU32::new(position))?;
    Ok(element)
}

/// Whether an element over bytes has these parts.
fn has_parts(element: &State<u32>, base: u32, check: u8, fail: u32, position: u32) -> bool {
    element.base() == NonZeroU32::new(base)
        && element.check() == check
        && element.fail() == fail
        && element.output_pos() == NonZeroU32::new(position)
}

#[test]
fn an_element_of_bytes_keeps_its_parts(rt: HostRuntime) -> Result<(), Fail> {
    let mut element = element(0xffff_ffff, 0xff, 7, 0x00ff_ffff)?;
    let refused = element.set_output_pos(NonZeroU32::new(0x0100_0000));
    expect(&rt, refused.is_err(), "a position past 24 bits");
    let same = has_parts(&element, 0xffff_ffff, 0xff, 7, 0x00ff_ffff);
    expect(&rt, same, "the parts");
    expect(&rt, element.without_link().fail() == Empty, "the link");
    Ok(())
}

/// An element over characters. A base or a position of 0 stands for none.
fn character_element(base: u32, check: u32, fail: u32, position: u32) -> CharacterState {
    let mut element = CharacterState::default();
    if let Some(base) = NonZeroU32::new(base) {
        element.set_base(base);
    }
    element.set_check(check);
    element.set_fail(fail);
    element.set_output_pos(NonZeroU32::new(position));
    element
}

/// Whether an element over characters has these parts.
fn has_character_parts(
    element: &CharacterState,
    base: u32,
    check: u32,
    fail: u32,
    position: u32,
) -> bool {
    element.base() == NonZeroU32::new(base)
        && element.check() == check
        && element.fail() == fail
        && element.output_pos() == NonZeroU32::new(position)
}

#[test]
fn an_element_of_characters_keeps_its_parts(rt: HostRuntime) {
    let vacant = CharacterState::default();
    expect(&rt, has_character_parts(&vacant, 0, 1, 1, 0), "vacant");
    let element = character_element(0xffff_ffff, 0xffff_fffe, 7, 0x0100_0000);
    let same = has_character_parts(&element, 0xffff_ffff, 0xffff_fffe, 7, 0x0100_0000);
    expect(&rt, same, "the parts");
}

#[test]
fn a_child_names_its_parent(rt: HostRuntime) {
    let vacant = CharacterState::default();
    let child = character_element(0, 0, 0, 0);
    let elements = [vacant, vacant, vacant, vacant, child];
    let root = character_element(5, 1, 0, 0);
    expect(&rt, root.child(0, 1, &elements) == Some(4), "the child");
    expect(&rt, root.child(2, 1, &elements).is_none(), "another parent");
    expect(&rt, root.child(0, 2, &elements).is_none(), "another code");
    expect(&rt, vacant.child(0, 1, &elements).is_none(), "no base");
}

/// Whether elements are written as they should be.
fn have_forms(alloc: Global) -> Result<bool> {
    let linked = element(101, 98, 7, 2)?;
    let filled = character_element(0x0123_4567, 0x89ab_cdef, 0x0246_8ace, 5);
    let form = [
        0x67, 0x45, 0x23, 0x01, 0xef, 0xcd, 0xab, 0x89, 0xce, 0x8a, 0x46, 0x02, 5, 0, 0, 0,
    ];
    Ok(
        has_form(alloc, &linked, &[101, 0, 0, 0, 7, 0, 0, 0, 98, 2, 0, 0])?
            && has_form(alloc, &linked.without_link(), &[101, 0, 0, 0, 98, 2, 0, 0])?
            && has_form(alloc, &filled, &form)?,
    )
}

#[test]
fn elements_have_their_forms(rt: HostRuntime) -> Result<(), Fail> {
    expect(&rt, have_forms(rt.alloc())?, "the forms");
    Ok(())
}
