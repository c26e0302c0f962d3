// Fields of hexadecimal digits, in lent buffers.
#![tactic(auto)]

pub mod hex;
