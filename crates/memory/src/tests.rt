// The three memories on small rows, and what a caller finds in its own slice once the memory is let go.
ghost use Rattle.std.specs.Prelude.{◌≡◌};
ghost use Rattle.memory.specs.Octets.{words_of, leftover};
ghost use Rattle.memory.specs.Row.{row_stored};
ghost use Rattle.memory.specs.Seen.{below_stored};

use crate::bytes::ByteMemory;
use crate::flat::FlatMemory;
use crate::kept::{KeptMemory, Refusal};
use crate::window::Window;
use std::test::Fail;

// The words are in the caller's slice.
fn store_in_words(row: &mut [u64], i: usize, w: u64)
    ensures after { row.new ≡ row_stored row.old i w }
{
    let mut memory = FlatMemory::new(row);
    let _ = memory.store(i, w);
}

// The words are in the caller's bytes, and the leftover bytes are as they were.
fn store_in_bytes(bytes: &mut [u8], i: usize, w: u64)
    ensures after { words_of bytes.new ≡ row_stored (words_of bytes.old) i w }
    ensures same { leftover bytes.new ≡ leftover bytes.old }
{
    let mut memory = ByteMemory::new(bytes);
    let _ = memory.store(i, w);
}

// A store through a window of any memory that is lent, and the whole row of that memory after it.
fn store_in_window<M: KeptMemory>(memory: &mut M, base: usize, size: usize, i: usize, w: u64)
    ensures after { M.words memory.new ≡ below_stored (M.words memory.old) base size i w }
    ensures same { M.rest memory.new ≡ M.rest memory.old }
{
    let mut window = Window::new(memory, base, size);
    let _ = window.store(i, w);
}

// The same in the caller's slice.
fn store_in_part(row: &mut [u64], base: usize, size: usize, i: usize, w: u64)
    ensures after { row.new ≡ below_stored row.old base size i w }
{
    let mut memory = FlatMemory::new(row);
    store_in_window(&mut memory, base, size, i, w);
}

#[test]
fn words(rt: HostRuntime) -> Result<(), Fail> {
    let mut row = [1u64, 2, 3];
    let mut memory = FlatMemory::new(&mut row);
    assert_eq!(rt; memory.count(), 3);
    memory.store(1, 7)?;
    assert_eq!(rt; memory.swap(2, 3, 9)?, true);
    assert_eq!(rt; memory.swap(0, 3, 9)?, false);
    assert_eq!(rt; memory.load(3), Err(Refusal::NoSuchWord));
    assert_eq!(rt; row[0], 1);
    assert_eq!(rt; row[1], 7);
    assert_eq!(rt; row[2], 9);
    Ok(())
}

#[test]
fn bytes(rt: HostRuntime) -> Result<(), Fail> {
    let mut bytes = [0u8; 19];
    let mut memory = ByteMemory::new(&mut bytes);
    assert_eq!(rt; memory.count(), 2);
    memory.store(1, 0x0102_0304_0506_0708)?;
    assert_eq!(rt; memory.load(1)?, 0x0102_0304_0506_0708);
    assert_eq!(rt; memory.store(2, 5), Err(Refusal::NoSuchWord));
    assert_eq!(rt; bytes[7], 0);
    assert_eq!(rt; bytes[8], 1);
    assert_eq!(rt; bytes[15], 8);
    assert_eq!(rt; bytes[16], 0);
    Ok(())
}

#[test]
fn window(rt: HostRuntime) -> Result<(), Fail> {
    let mut row = [10u64, 11, 12, 13, 14];
    let mut memory = FlatMemory::new(&mut row);
    let mut inner = Window::new(&mut memory, 1, 3);
    inner.fits()?;
    assert_eq!(rt; inner.load(0)?, 11);
    inner.store(2, 99)?;
    assert_eq!(rt; inner.load(3), Err(Refusal::NoSuchWord));
    assert_eq!(rt; memory.load(3)?, 99);
    let past = Window::new(&mut memory, 3, 3);
    assert_eq!(rt; past.count(), 0);
    assert_eq!(rt; past.fits(), Err(Refusal::NoSuchWindow));
    Ok(())
}

#[test]
fn refusals(rt: HostRuntime) -> Result<(), Fail> {
    assert_eq!(rt; Refusal::NoSuchWord.number(), 20);
    assert_eq!(rt; Refusal::NoSuchWindow.number(), 21);
    let shown = format!(in rt.alloc(); "{}", Refusal::NoSuchWindow)?;
    assert_eq!(rt; shown.as_str(), "refused 21");
    Ok(())
}
