// Classes of bytes: which bytes are of one, and fields of such bytes.
#![tactic(auto)]

ghost use Rattle.std.specs.Prelude.{◌≡◌};
ghost use Rattle.ground.specs.Lists.{all};
ghost use Rattle.ground.specs.Digits.{is_digit};
ghost use Rattle.format.specs.Bytes.{is_capital, is_alnum, are_all};
ghost use Rattle.classes.specs.Classes.{in_class};

// A class of bytes: the one loop over a field's bytes serves them all.
#[derive(Clone, Copy)]
pub enum Class {
    Digit,
    Capital,
    Alnum,
    NoHash,
}

// A digit.
pub fn is_digit(b: u8) -> bool
    ensures { result ≡ is_digit b }
{
    b.is_ascii_digit()
}

fn is_capital(b: u8) -> bool
    ensures { result ≡ is_capital b }
{
    b.is_ascii_uppercase()
}

fn is_alnum(b: u8) -> bool
    ensures { result ≡ is_alnum b }
{
    b.is_ascii_alphanumeric()
}

fn in_class(c: Class, b: u8) -> bool
    ensures { result ≡ in_class c b }
{
    match c {
        Class::Digit => is_digit(b),
        Class::Capital => is_capital(b),
        Class::Alnum => is_alnum(b),
        Class::NoHash => b != b'#',
    }
}

// Every byte is of the class.
pub fn all_in(f: &[u8], c: Class) -> bool
    ensures { result ≡ all (in_class c) f.now }
{
    f.iter().all(|b| in_class(c, *b))
}

// least to most bytes, all of the class.
pub fn are_all(f: &[u8], c: Class, least: usize, most: usize) -> bool
    ensures { result ≡ are_all (in_class c) least most f.now }
{
    least <= f.len() && f.len() <= most && all_in(f, c)
}
