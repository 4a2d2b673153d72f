// Fields of bits in lent octets, read and written at a cursor.
#![tactic(auto)]

pub mod bitbuffer;
pub mod pdu_parse_error;
