//! The parts of a reply's line. The caller has made room for them.
ghost use Rattle.std.specs.Prelude.{◌≡◌, ◌+◌, ◌≤◌, ◌++◌, length, decimal};
ghost use Rattle.kfs_types.specs.Room.{Appends, spare_of};
ghost use Rattle.kfs_program_text.specs.Parts.{field_text, flag_text, numbered_text, octal_text};

use itoa::Buffer;
use std::alloc::Allocator;

/// Appends the bytes as they are.
pub fn text<A: Allocator>(out: &mut Vec<u8, A>, bytes: &[u8])
    requires { length bytes.now ≤ spare_of out.old }
    ensures { Appends out.old out.new (length bytes.now) bytes.now }
{
    out.extend_from_slice(bytes).unwrap();
}

/// Appends the number in decimal, without leading zeros.
pub fn number<A: Allocator>(out: &mut Vec<u8, A>, value: u64)
    requires { 20 ≤ spare_of out.old }
    ensures { Appends out.old out.new 20 (decimal value) }
{
    let mut digits = Buffer::new();
    text(out, digits.format(value).as_bytes());
}

/// Appends the permission bits as four octal digits.
pub fn octal<A: Allocator>(out: &mut Vec<u8, A>, mode: u16)
    requires { 4 ≤ spare_of out.old }
    ensures { Appends out.old out.new 4 (octal_text mode) }
{
    let digit = |shift: u16| b'0' + (mode >> shift & 7) as u8;
    text(out, &[digit(9), digit(6), digit(3), digit(0)]);
}

/// Appends a space and the number.
pub fn field<A: Allocator>(out: &mut Vec<u8, A>, value: u64)
    requires { 21 ≤ spare_of out.old }
    ensures { Appends out.old out.new 21 (field_text value) }
{
    text(out, b" ");
    number(out, value);
}

/// Appends 1 for true and 0 for false.
pub fn flag<A: Allocator>(out: &mut Vec<u8, A>, value: bool)
    requires { 1 ≤ spare_of out.old }
    ensures { Appends out.old out.new 1 (flag_text value) }
{
    text(out, if value { b"1" } else { b"0" });
}

/// Appends a name, and the number in brackets.
pub fn numbered<A: Allocator>(out: &mut Vec<u8, A>, name: &[u8], value: u64)
    requires { length name.now + 22 ≤ spare_of out.old }
    ensures { Appends out.old out.new (length name.now + 22) (numbered_text name.now value) }
{
    text(out, name);
    text(out, b"(");
    number(out, value);
    text(out, b")");
}
