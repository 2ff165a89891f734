//! The beats of the channels, each as the text of its fields.

ghost use Rattle.std.specs.Prelude.{◌≡◌, ℕ, ◌+◌, ◌≤◌, ◌++◌, List, Option, length, option_map};
ghost use Rattle.axi_beats.specs.Bus.{IsBusWidth};
ghost use Rattle.trace_text.specs.Form.{address_text, read_data_text, response_text, write_data_text};
ghost use Rattle.trace_text.specs.Reading.{address_in, read_data_in, response_in, write_data_in};

use crate::fields::{
    bit_before, decimal_before, greatest_strobe, hexadecimal_before, push_bit_before,
    push_decimal_before, push_hexadecimal_before, push_lanes_before, push_tag, read_lanes, tag_in,
};
use axi_beats::WBeat;
use axi_history::{RawAddr, RawB, RawR};
use plain_text::fields::field_before;
use plain_text::line_buffer::LineBuffer;

/// A beat that a channel of a trace line can offer.
pub(crate) trait TraceBeat: Copy + Default {
    // The text of a beat's fields, on a bus of so many bytes.
    ghost text_of: { ℕ → Self → List ℕ };

    // The beat whose fields the text is, on a bus of so many bytes, if there is one.
    ghost read_of: { ℕ → List ℕ → Option Self };

    /// Writes the beat's fields on this bus.
    fn push(&self, line: &mut LineBuffer, bus: u8)
        requires bus { bus ≤ 128 }
        requires space { length line.old + 500 ≤ LineBuffer.ROOM }
        ensures text { line.new ≡ line.old ++ text_of bus self.now }
        ensures room { length line.new ≤ length line.old + 500 };

    /// Takes over the beat whose fields on this bus the text is, if there is one.
    fn read(&mut self, text: &[u8], bus: u8) -> Option<()>
        requires { IsBusWidth bus }
        ensures { option_map (λ _. self.new) result ≡ read_of bus text.now };
}

// A beat of AW or AR.
impl TraceBeat for RawAddr {
    ghost text_of = { λ bus beat. address_text beat };

    ghost read_of = { λ bus text. address_in text };

    #[tactic(auto, unfolding(crate::specs::Form::address_text))]
    fn push(&self, line: &mut LineBuffer, _bus: u8) {
        push_decimal_before(line, u64::from(self.id), b',');
        push_hexadecimal_before(line, u128::from(self.addr), b',');
        push_decimal_before(line, u64::from(self.len), b',');
        push_decimal_before(line, u64::from(self.size), b',');
        push_decimal_before(line, u64::from(self.burst), b',');
        push_bit_before(line, self.lock, b',');
        push_tag(line, &self.tag);
    }

    #[tactic(auto, unfolding(crate::specs::Reading::address_in))]
    fn read(&mut self, text: &[u8], _bus: u8) -> Option<()> {
        let (id, rest) = decimal_before(text, b',', 1 << 32)?;
        let (addr, rest) = hexadecimal_before(rest, b',', (1 << 63) - 1)?;
        let (len, rest) = decimal_before(rest, b',', 256)?;
        let (size, rest) = decimal_before(rest, b',', 8)?;
        let (burst, rest) = decimal_before(rest, b',', 4)?;
        let (lock, rest) = bit_before(rest, b',')?;
        let tag = tag_in(rest)?;
        *self = RawAddr {
            id: id as u32,
            addr: addr as u64,
            len: len as u8,
            size: size as u8,
            burst: burst as u8,
            lock,
            tag,
        };
        Some(())
    }
}

// A beat of W.
impl TraceBeat for WBeat {
    ghost text_of = { write_data_text };

    ghost read_of = { write_data_in };

    #[tactic(auto, unfolding(crate::specs::Form::write_data_text))]
    fn push(&self, line: &mut LineBuffer, bus: u8) {
        push_lanes_before(line, &self.lanes, bus, b',');
        push_hexadecimal_before(line, self.strobe, b',');
        push_bit_before(line, self.last, b',');
        push_tag(line, &self.tag);
    }

    #[tactic(auto, unfolding(crate::specs::Reading::write_data_in, crate::specs::Reading::lanes_before))]
    fn read(&mut self, text: &[u8], bus: u8) -> Option<()> {
        let (word, rest) = field_before(text, b',')?;
        read_lanes(&mut self.lanes, word, bus)?;
        let (strobe, rest) = hexadecimal_before(rest, b',', greatest_strobe(bus))?;
        let (last, rest) = bit_before(rest, b',')?;
        let tag = tag_in(rest)?;
        self.strobe = strobe;
        self.last = last;
        self.tag = tag;
        Some(())
    }
}

// A beat of B.
impl TraceBeat for RawB {
    ghost text_of = { λ bus beat. response_text beat };

    ghost read_of = { λ bus text. response_in text };

    #[tactic(auto, unfolding(crate::specs::Form::response_text))]
    fn push(&self, line: &mut LineBuffer, _bus: u8) {
        push_decimal_before(line, u64::from(self.id), b',');
        push_decimal_before(line, u64::from(self.resp), b',');
        push_tag(line, &self.tag);
    }

    #[tactic(auto, unfolding(crate::specs::Reading::response_in))]
    fn read(&mut self, text: &[u8], _bus: u8) -> Option<()> {
        let (id, rest) = decimal_before(text, b',', 1 << 32)?;
        let (resp, rest) = decimal_before(rest, b',', 4)?;
        let tag = tag_in(rest)?;
        *self = RawB {
            id: id as u32,
            resp: resp as u8,
            tag,
        };
        Some(())
    }
}

// A beat of R.
impl TraceBeat for RawR {
    ghost text_of = { read_data_text };

    ghost read_of = { read_data_in };

    #[tactic(auto, unfolding(crate::specs::Form::read_data_text))]
    fn push(&self, line: &mut LineBuffer, bus: u8) {
        push_decimal_before(line, u64::from(self.id), b',');
        push_lanes_before(line, &self.lanes, bus, b',');
        push_decimal_before(line, u64::from(self.resp), b',');
        push_bit_before(line, self.last, b',');
        push_tag(line, &self.tag);
    }

    #[tactic(auto, unfolding(crate::specs::Reading::read_data_in, crate::specs::Reading::lanes_before))]
    fn read(&mut self, text: &[u8], bus: u8) -> Option<()> {
        let (id, rest) = decimal_before(text, b',', 1 << 32)?;
        let (word, rest) = field_before(rest, b',')?;
        read_lanes(&mut self.lanes, word, bus)?;
        let (resp, rest) = decimal_before(rest, b',', 4)?;
        let (last, rest) = bit_before(rest, b',')?;
        let tag = tag_in(rest)?;
        self.id = id as u32;
        self.resp = resp as u8;
        self.last = last;
        self.tag = tag;
        Some(())
    }
}
