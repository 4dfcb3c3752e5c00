//! Bytes in upper-case hex, into a buffer from a place on.
ghost use Rattle.std.specs.Prelude.{◌≡◌, ◌<◌};
ghost use Rattle.text.specs.Text.{hex_figure, hex, text_at};
ghost use Rattle.text.specs.Answers.{written};

use crate::Writer;

#[tactic(auto, unfolding(crate::specs::Text::hex_figure, basis::specs::Choice::pick))]
pub(crate) fn hex_figure(d: u8) -> u8
    requires { d < 16 }
    ensures { result ≡ hex_figure d }
{
    if d < 10 { b'0' + d } else { b'A' - 10 + d }
}

/// Bytes in upper-case hex, two figures each, from a place of the buffer on; answers the place
/// behind them. Where they have no room nothing is written, and the place stands.
#[tactic(auto, using(crate::proofs::Pages::places_of_hex))]
pub fn put_hex(out: &mut [u8], at: usize, bytes: &[u8]) -> usize
    ensures { written result out.new ≡ text_at (hex bytes.now) out.old at }
{
    if out.len() < at {
        return at;
    }
    if (out.len() - at) / 2 < bytes.len() {
        return at;
    }
    let mut writer = Writer::begin(out, at);
    match writer.put_hex(bytes) {
        Ok(()) => writer.place(),
        Err(_) => at,
    }
}
