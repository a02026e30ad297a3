use crate::fixtures::{program_of, typed_of};
use src_tree::print;
use std::alloc::Global;
use std::test::Fail;

// The text of the program that a text parses as.
fn printed(alloc: Global, text: &[u8]) -> Result<Vec<u8>, Fail> {
    let program = program_of(alloc, text)?;
    match print(alloc, &program) {
        Ok(text) => Ok(text),
        Err(_) => Err(Fail::from("no memory")),
    }
}

/// Texts of programs, and how these are printed.
const ROWS: &[(&[u8], &[u8])] = &[
    (
        b"secret int s; public int p; p = s;",
        b"secret int s ;\npublic int p ;\np = s ;\n",
    ),
    (
        b"public int x; x = 1 - 2 - 3 << 1;",
        b"public int x ;\nx = ( ( ( 1 - 2 ) - 3 ) << 1 ) ;\n",
    ),
    (
        b"x = 1 | 2 ^ 3 & 4 << 5 + 6 * 7;",
        b"x = ( 1 | ( 2 ^ ( 3 & ( 4 << ( 5 + ( 6 * 7 ) ) ) ) ) ) ;\n",
    ),
    (
        b"x = 1 * 2 + 3 >> 4 & 5 ^ 6 | 7;",
        b"x = ( ( ( ( ( ( 1 * 2 ) + 3 ) >> 4 ) & 5 ) ^ 6 ) | 7 ) ;\n",
    ),
    (
        b"x = -a[2] * ((3)) / 4 % 5;",
        b"x = ( ( ( ( 0 - a [ 2 ] ) * 3 ) / 4 ) % 5 ) ;\n",
    ),
    (
        b"secret int a[007]; if (a[1] != 2) { while (x >= 0) { a[x] = 1; } }",
        b"secret int a [ 7 ] ;\nif ( a [ 1 ] != 2 ) {\nwhile ( x >= 0 ) {\na [ x ] = 1 ;\n}\n}\nelse {\n}\n",
    ),
];

// Operators of one level group to the left, tighter ones bind first, and brackets leave no trace. What is printed is
// read again, and printed alike.
#[test]
fn programs_are_printed_in_one_way(rt: HostRuntime) -> Result<(), Fail> {
    for (text, want) in ROWS {
        assert_eq!(rt; printed(rt.alloc(), text)?.as_slice(), *want);
        assert_eq!(rt; printed(rt.alloc(), want)?.as_slice(), *want);
    }
    Ok(())
}

// An expression weighs its nodes, and both paths of a branch on a secret count twice.
#[test]
fn a_typed_program_has_its_weight(rt: HostRuntime) -> Result<(), Fail> {
    let typed = typed_of(
        rt.alloc(),
        b"secret int s; public int x; if (s < 1) { s = 1; } else { s = x + 2; } if (x < 1) { x = 1; } \
        while (x < 1) { x = 1; }",
    )?;
    assert_eq!(rt; typed.weight(), 25);
    Ok(())
}
