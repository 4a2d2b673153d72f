// The library as it is linked: the calls of the crate exports under the same names, with the same promises.
#![tactic(auto)]

ghost use Rattle.std.specs.Prelude.{◌≡◌};
ghost use Rattle.messages.specs.Calls.{message_of, reading};
ghost use Rattle.exports.specs.Flat.{read_result, read_buffer};
ghost use Rattle.exports.specs.Rewrite.{rewrite_result, rewrite_octets};

// A reading call into a flat buffer: 64 × the bits consumed, plus the refusal's number.
#[unsafe(no_mangle)]
pub extern "C" fn tetra_mm_read(
    message: u64,
    wanted: u64,
    octets: &[u8],
    first: u64,
    end: u64,
    flat: &mut [u8],
) -> u64
    ensures result { result ≡ read_result (message_of message) (reading message wanted octets.now first end) flat.old }
    ensures buffer { flat.new ≡ read_buffer (message_of message) (reading message wanted octets.now first end) flat.old }
{
    exports::tetra_mm_read(message, wanted, octets, first, end, flat)
}

// A rewriting: the strict reading in one window, and its record written to a second; 64 × the bits written, plus the number of
// the first refusal met.
#[unsafe(no_mangle)]
pub extern "C" fn tetra_mm_rewrite(
    message: u64,
    octets: &[u8],
    first: u64,
    end: u64,
    out: &mut [u8],
    out_first: u64,
    out_end: u64,
) -> u64
    ensures result { result ≡ rewrite_result (message_of message) octets.now first end out.old out_first out_end }
    ensures octets { out.new ≡ rewrite_octets (message_of message) octets.now first end out.old out_first out_end }
{
    exports::tetra_mm_rewrite(message, octets, first, end, out, out_first, out_end)
}
