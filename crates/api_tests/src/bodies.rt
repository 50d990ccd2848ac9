//! Places of the marks in bodies.
use std::alloc::{AllocError, Global};
use std::test::Fail;
use w_decode::decode;
use w_syntax::{BlockKind, BlockType, Instr, Module, PackedInstr};

// A function of no type that is there, in front of whose code stands its size.
static FRONT: [u8; 15] = [
    0x00, 0x61, 0x73, 0x6D, 0x01, 0x00, 0x00, 0x00, 0x03, 0x02, 0x01, 0x00, 0x0A, 0x00, 0x01,
];

// The module with a function of this body, which has fewer than a hundred bytes.
fn module_of(alloc: Global, body: &[u8]) -> Result<Module, Fail> {
    let mut bytes = FRONT.to_vec(alloc)?;
    let size = (body.len() % 100) as u8;
    bytes[13] = size + 3;
    bytes.push(size + 1)?;
    bytes.push(0x00)?;
    bytes.extend_from_slice(body)?;
    Ok(decode(alloc, bytes.as_slice())?)
}

// Adds the places that a block or an if names: of an if first that of its else.
fn add_places(places: &mut Vec<usize>, instr: &Instr) -> Result<(), AllocError> {
    match instr {
        Instr::Block(_, _, end) => places.push(*end)?,
        Instr::If(_, other, end) => {
            if let Some(other) = other {
                places.push(*other)?;
            }
            places.push(*end)?;
        }
        Instr::Plain(_) | Instr::Else | Instr::End => {}
    }
    Ok(())
}

// Those of an instruction as a body keeps it.
fn add_packed_places(places: &mut Vec<usize>, packed: &PackedInstr) -> Result<(), AllocError> {
    let view = packed.view();
    let added = add_places(places, view.instr());
    drop(view);
    added
}

// The places that blocks and ifs of the first function name, in the order in which they stand.
fn named_places(alloc: Global, module: &Module) -> Result<Vec<usize>, Fail> {
    let mut places = Vec::new(alloc);
    let Some(function) = module.codes.as_slice().first() else {
        return Ok(places);
    };
    for packed in function.body.instrs() {
        add_packed_places(&mut places, packed)?;
    }
    Ok(places)
}

// Those of a body.
fn places_of(alloc: Global, body: &[u8]) -> Result<Vec<usize>, Fail> {
    let module = module_of(alloc, body)?;
    let places = named_places(alloc, &module);
    drop(module);
    places
}

#[test]
fn blocks_and_ifs_name_their_marks(rt: HostRuntime) -> Result<(), Fail> {
    let alloc = rt.alloc();
    let rows: [(&[u8], &[usize]); 7] = [
        (&[0x0B], &[]),
        (&[0x02, 0x40, 0x01, 0x0B, 0x01, 0x0B], &[2]),
        (&[0x04, 0x40, 0x01, 0x0B, 0x0B], &[2]),
        // a loop in an else, and an if with nothing in it
        (
            &[
                0x04, 0x40, 0x01, 0x05, 0x03, 0x03, 0x0B, 0x0B, 0x04, 0x40, 0x0B, 0x0B,
            ],
            &[2, 5, 4, 7],
        ),
        // an if in a loop, with a block in its else
        (
            &[
                0x03, 0x40, 0x04, 0x7F, 0x01, 0x05, 0x02, 0x40, 0x0B, 0x01, 0x0B, 0x0B, 0x0B,
            ],
            &[8, 3, 7, 5],
        ),
        // types that have no room beside the places: an else of the function type 65,536, and a block of a reference to that type
        (
            &[0x04, 0x80, 0x80, 0x04, 0x01, 0x05, 0x01, 0x0B, 0x0B],
            &[2, 4],
        ),
        (&[0x02, 0x64, 0x80, 0x80, 0x04, 0x01, 0x0B, 0x0B], &[2]),
    ];
    for (body, expected) in rows {
        let places = places_of(alloc, body)?;
        assert_eq!(rt; places.as_slice(), expected, "{body:?}");
    }
    Ok(())
}

// Whether it is a loop of type 64 whose end stands at place 1.
fn is_loop_of_type_64(packed: &PackedInstr) -> bool {
    let view = packed.view();
    let is_it = matches!(
        view.instr(),
        Instr::Block(BlockKind::Loop, BlockType::Index(64), 1)
    );
    drop(view);
    is_it
}

// Whether the first function begins with such a loop.
fn begins_with_loop_of_type_64(module: &Module) -> bool {
    match module.codes.as_slice().first() {
        Some(function) => match function.body.instrs().first() {
            Some(packed) => is_loop_of_type_64(packed),
            None => false,
        },
        None => false,
    }
}

#[test]
fn blocks_have_their_types(rt: HostRuntime) -> Result<(), Fail> {
    let module = module_of(rt.alloc(), &[0x03, 0xC0, 0x00, 0x0B, 0x0B])?;
    assert!(rt; begins_with_loop_of_type_64(&module));
    drop(module);
    Ok(())
}
