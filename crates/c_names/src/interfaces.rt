// Names of interfaces' procedures.
ghost use Rattle.std.specs.Prelude.{◌≡◌, ◌≤◌, ◌&&◌, length, IfOk, if◌then◌else◌, true, nat_eq, nat_lt, drop, reverse, codes};
ghost use Rattle.std.specs.List.{starts_with, prefix_len};
ghost use Rattle.std.specs.Char.{is_ascii_digit};
ghost use Rattle.c_semantics.specs.Machine.{is_interface};

use std::alloc::{AllocError, Global};

fn leading_digits(name: &[u8]) -> usize
    ensures digits { result ≡ prefix_len is_ascii_digit name.now }
    ensures within { result ≤ length name.now }
{
    name.iter().take_while(|b| b.is_ascii_digit()).count()
}

// Digits, and then `_out` backwards.
fn is_number_of_out(name: &[u8]) -> bool
    ensures { result
        ≡ (nat_lt 0 (prefix_len is_ascii_digit name.now)
        && starts_with nat_eq (drop (prefix_len is_ascii_digit name.now) name.now)
        (reverse (codes "_out"))) }
{
    let digits = leading_digits(name);
    if digits == 0 {
        return false;
    }
    name[digits..].starts_with(b"tuo_")
}

// The name of an interface's procedure, backwards.
fn is_interface_backwards(name: &[u8]) -> bool
    ensures { result ≡ (if starts_with nat_eq name.now (reverse (codes "_update")) then true
        else nat_lt 0 (prefix_len is_ascii_digit name.now)
        && starts_with nat_eq (drop (prefix_len is_ascii_digit name.now) name.now)
        (reverse (codes "_out"))) }
{
    if name.starts_with(b"etadpu_") {
        true
    } else {
        is_number_of_out(name)
    }
}

/// Whether a procedure of this name is an interface's, so that its calls are logged. Fails where memory runs out.
pub fn is_interface(alloc: Global, name: &[u8]) -> Result<bool, AllocError>
    ensures { IfOk result (λ b. b ≡ is_interface name.now) }
{
    let backwards: Vec<u8> = name.iter().rev().copied().collect(alloc)?;
    Ok(is_interface_backwards(&backwards))
}
