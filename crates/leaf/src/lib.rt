// What the rules of fields are made of, beside classes of bytes: the ends and places of bytes, and digits. Nothing here knows which field it looks at.
#![tactic(auto)]

pub mod bytes;
pub mod digits;
