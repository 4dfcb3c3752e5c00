//! The four fields of a package as bytes: version text, then size, total and check code as WORDs.
ghost use Rattle.std.specs.Prelude.{◌≡◌, ◌+◌, ◌≤◌, length};
ghost use Rattle.basis.specs.Bytes.{patched};
ghost use Rattle.message.specs.Messages.{fields_bytes, fields_at};

use crate::Fields;
use crate::version::version_at;

// Where the WORDs stand, from where the fields begin.
const SIZE: usize = Fields::VERSION_LENGTH;

const TOTAL: usize = SIZE + 2;

const CODE: usize = TOTAL + 2;

/// The fields at a place of a slice. A byte that is not there counts as 0.
pub fn fields_at(bytes: &[u8], at: usize) -> Fields
    ensures { result ≡ fields_at bytes.now at }
{
    let version = version_at(bytes, at);
    if bytes.len() <= at {
        return Fields {
            version,
            size: 0,
            total: 0,
            code: 0,
        };
    }
    Fields {
        version,
        size: basis::word_at(bytes, at + SIZE),
        total: basis::word_at(bytes, at + TOTAL),
        code: basis::word_at(bytes, at + CODE),
    }
}

/// Writes the fields into the buffer from a place on. The buffer has room for them.
#[tactic(auto, using(basis::proofs::Lists::patched_patched))]
pub fn put_fields(buffer: &mut [u8], at: usize, fields: Fields)
    requires { at + 22 ≤ length buffer.old }
    ensures { buffer.new ≡ patched at (fields_bytes fields) buffer.old }
{
    let version = fields.version;
    let words = basis::words_of(fields.size, fields.total, fields.code);
    basis::put(buffer, at, &version);
    basis::put(buffer, at + SIZE, &words);
}
