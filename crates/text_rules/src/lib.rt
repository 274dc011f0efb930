// The rules of names and texts, one function a rule. A field is a part of the file, `&file[a..b]`; each answer is what the meaning says of its bytes:
// NMI, suffix, data stream, from and to, configuration, register, serial, service order, description, direction, trans code, version.
#![tactic(auto)]

ghost use Rattle.std.specs.Prelude.{◌≡◌};
ghost use Rattle.format.specs.Texts.{is_nmi, is_suffix, is_stream, is_party, is_configuration, is_register, is_serial, is_service_order, is_description, is_direction, is_trans_code, version_of};

use classes::{Class, all_in, are_all};
use leaf::bytes::{same_bytes, text};

pub fn nmi(f: &[u8]) -> bool
    ensures { result ≡ is_nmi f.now }
{
    are_all(f, Class::Alnum, 10, 10)
}

pub fn suffix(f: &[u8]) -> bool
    ensures { result ≡ is_suffix f.now }
{
    are_all(f, Class::Alnum, 2, 2)
}

pub fn data_stream(f: &[u8]) -> bool
    ensures { result ≡ is_stream f.now }
{
    f.is_empty() || suffix(f)
}

// From and to.
pub fn party(f: &[u8]) -> bool
    ensures { result ≡ is_party f.now }
{
    text(f, 1, 10) && all_in(f, Class::NoHash)
}

pub fn configuration(f: &[u8]) -> bool
    ensures { result ≡ is_configuration f.now }
{
    text(f, 1, 240)
}

pub fn register(f: &[u8]) -> bool
    ensures { result ≡ is_register f.now }
{
    text(f, 0, 10)
}

pub fn serial(f: &[u8]) -> bool
    ensures { result ≡ is_serial f.now }
{
    text(f, 0, 12)
}

pub fn service_order(f: &[u8]) -> bool
    ensures { result ≡ is_service_order f.now }
{
    text(f, 0, 15)
}

pub fn description(f: &[u8]) -> bool
    ensures { result ≡ is_description f.now }
{
    text(f, 0, 240)
}

pub fn direction(f: &[u8]) -> bool
    ensures { result ≡ is_direction f.now }
{
    same_bytes(f, b"I") || same_bytes(f, b"E")
}

pub fn trans_code(f: &[u8]) -> bool
    ensures { result ≡ is_trans_code f.now }
{
    are_all(f, Class::Capital, 1, 1)
}

// 12 or 13.
pub fn version(f: &[u8]) -> Option<u64>
    ensures { result ≡ version_of f.now }
{
    if same_bytes(f, b"NEM12") {
        return Some(12);
    }
    if same_bytes(f, b"NEM13") {
        return Some(13);
    }
    None
}
