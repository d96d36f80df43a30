//! The text of a listing that is made by hand.

use crate::{
    Block, Case, Constant, Else, Halt, Instr, Listing, Part, Registers, Tag, Word, print_listing,
};
use rml_base::{Bytes, Memory};
use sqlite_items::Items;
use std::alloc::Global;
use std::test::Fail;

fn registers(alloc: Global, numbers: &[u64]) -> Result<Registers, Memory> {
    let mut all = Items::new(alloc);
    for r in numbers {
        all.push(*r)?;
    }
    Ok(all)
}

fn alone(alloc: Global, instr: Instr) -> Result<Block, Memory> {
    let mut block = Items::new(alloc);
    block.push(instr)?;
    Ok(block)
}

fn constants(alloc: Global) -> Result<Items<Constant>, Memory> {
    let mut all = Items::new(alloc);
    all.push(Constant::Text(Bytes::of(Vec::from_slice(alloc, b"a\n")?)))?;
    let mut parts = Items::new(alloc);
    parts.push(Part::Word(Word::Char(65)))?;
    parts.push(Part::Constant(0))?;
    all.push(Constant::Tuple(parts))?;
    all.push(Constant::Cons(Part::Constant(1), Part::Word(Word::Con(0))))?;
    Ok(all)
}

fn cases(alloc: Global) -> Result<Items<Case>, Memory> {
    let mut all = Items::new(alloc);
    all.push(Case {
        tag: Tag::Int(-1),
        block: 5,
    })?;
    all.push(Case {
        tag: Tag::Int(7),
        block: 6,
    })?;
    Ok(all)
}

fn entry(alloc: Global) -> Result<Block, Memory> {
    let mut block = Items::new(alloc);
    block.push(Instr::Move(1, 0))?;
    block.push(Instr::Word(2, Word::Rel(2)))?;
    block.push(Instr::Const(3, 2))?;
    block.push(Instr::Field(4, 3, 1))?;
    block.push(Instr::Con(5, 7, registers(alloc, &[1, 2])?))?;
    block.push(Instr::Tuple(6, registers(alloc, &[])?))?;
    block.push(Instr::Cons(6, 5, 4))?;
    block.push(Instr::Guard(4, registers(alloc, &[])?))?;
    block.push(Instr::Save(3, registers(alloc, &[1, 6])?))?;
    block.push(Instr::Equal(1, 1, Else::Block(4)))?;
    block.push(Instr::Switch(0, cases(alloc)?, Else::Fail))?;
    Ok(block)
}

fn others(alloc: Global) -> Result<Block, Memory> {
    let mut block = Items::new(alloc);
    block.push(Instr::Resume(registers(alloc, &[1, 6])?))?;
    block.push(Instr::Drop)?;
    block.push(Instr::Builtin(
        0,
        registers(alloc, &[0, 1])?,
        registers(alloc, &[0])?,
        Else::Fail,
    ))?;
    block.push(Instr::Builtin(
        27,
        registers(alloc, &[2])?,
        registers(alloc, &[])?,
        Else::Fail,
    ))?;
    block.push(Instr::Retry(registers(alloc, &[])?))?;
    block.push(Instr::CallRegister(2))?;
    Ok(block)
}

fn sample(alloc: Global) -> Result<Listing, Memory> {
    let mut blocks = Items::new(alloc);
    blocks.push(alone(alloc, Instr::Halt(Halt::Integer))?)?;
    blocks.push(alone(alloc, Instr::Halt(Halt::No))?)?;
    blocks.push(entry(alloc)?)?;
    blocks.push(others(alloc)?)?;
    blocks.push(alone(alloc, Instr::Goto(5))?)?;
    blocks.push(alone(alloc, Instr::Call(2))?)?;
    blocks.push(alone(alloc, Instr::Answer)?)?;
    Ok(Listing {
        registers: 7,
        constants: constants(alloc)?,
        blocks,
        main: 2,
        longest: 40,
        weight: 40,
    })
}

const TEXT: &[u8] = b"registers 7
constants 3
constant 0 text \"a\\n\"
constant 1 tuple char 65 constant 0
constant 2 cons constant 1 con 0
blocks 7
main 2
block 0
  halt yes r0
block 1
  halt no
block 2
  move r1 r0
  word r2 rel 2
  const r3 2
  field r4 r3 1
  con r5 7 r1 r2
  tuple r6
  cons r6 r5 r4
  guard 4
  save 3 r1 r6
  equal r1 r1 else 4
  switch r0
    int -1 -> 5
    int 7 -> 6
    else fail
block 3
  resume r1 r6
  drop
  builtin int_add r0 r1 => r0 else fail
  builtin print r2 => else fail
  retry
  callr r2
block 4
  goto 5
block 5
  call 2
block 6
  answer
";

#[test]
fn code_is_printed(rt: HostRuntime) -> Result<(), Fail> {
    let text = print_listing(rt.alloc(), &sample(rt.alloc())?)?;
    assert_eq!(rt; text.as_slice(), TEXT);
    Ok(())
}
