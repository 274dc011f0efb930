// The kinds of records. Those that come often, 100 to 500 and 250, are told by their bytes, and no number is made of digits.
#![tactic(auto)]

ghost use Rattle.std.specs.Prelude.{◌≡◌, ◌<◌, Some, length};
ghost use Rattle.format.specs.Records.{indicator_of};

// The kind that three bytes name, if it is one of these; else 0.
fn common_kind(f: &[u8]) -> u64
    requires { length f.now ≡ 3 }
    ensures { 0 < result → indicator_of f.now ≡ Some result }
{
    match (f[0], f[1], f[2]) {
        (b @ b'1'..=b'5', b'0', b'0') => u64::from(b - b'0') * 100,
        (b'2', b'5', b'0') => 250,
        _ => 0,
    }
}

// The kind of record that a first field names.
pub fn indicator(f: &[u8]) -> Option<u64>
    ensures { result ≡ indicator_of f.now }
{
    if f.len() == 3 {
        let k = common_kind(f);
        if 0 < k {
            return Some(k);
        }
    }
    number_rules::indicator(f)
}
