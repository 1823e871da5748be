//! The code mapper, where no contract speaks: a worked row, and calls with ample memory.

use super::expect;
use super::forms::has_list_form;
use daachorse_charwise_states::mapper::{CodeMapper, INVALID_CODE, code_in};
use std::test::Fail;

/// Characters and their codes, for the frequencies 3, 6, 0, 2, 3, 0 and 3 from U+0000 on.
const CODES: [(char, Option<u32>); 9] = [
    ('\u{0}', Some(1)),
    ('\u{1}', Some(0)),
    ('\u{2}', None),
    ('\u{3}', Some(4)),
    ('\u{4}', Some(2)),
    ('\u{5}', None),
    ('\u{6}', Some(3)),
    ('\u{7}', None),
    ('\u{10ffff}', None),
];

#[test]
fn frequent_characters_have_small_codes(rt: HostRuntime) -> Result<(), Fail> {
    let mapper = CodeMapper::new(rt.alloc(), &[3, 6, 0, 2, 3, 0, 3])?;
    for (c, code) in &CODES {
        let codes = (mapper.get(*c), code_in(mapper.table(), *c));
        expect(&rt, codes == (*code, *code), "the code");
    }
    let table = [1, 0, INVALID_CODE, 4, 2, INVALID_CODE, 3];
    let sizes = (mapper.alphabet_size(), mapper.block_len());
    let holds = mapper.table() == table.as_slice() && sizes == (5, Some(8));
    expect(&rt, holds, "the table, the alphabet and the blocks");
    Ok(())
}

#[test]
fn a_mapper_has_its_form(rt: HostRuntime) -> Result<(), Fail> {
    let mapper = CodeMapper::new(rt.alloc(), &[1, 0, 2])?;
    let form = [
        3, 0, 0, 0, 1, 0, 0, 0, 255, 255, 255, 255, 0, 0, 0, 0, 2, 0, 0, 0,
    ];
    assert!(rt; mapper.table().len() == 3);
    expect(&rt, has_list_form(rt.alloc(), &mapper, &form)?, "the form");
    Ok(())
}
