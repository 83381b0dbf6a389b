//! What a poll of a neighbour's way found waits until the panel was polled again.

ghost use Rattle.std.specs.Prelude.{◌≡◌, ◌≤◌, Some, None, IfSome, OnOk, is_some, length, nat_lt, option_map, vec_len};
ghost use Rattle.node_run.specs.Held.{HasFewLooks, holds, looks_behind, most_bytes, nothing_held, seen_finding};

use line_base::{Memory, Side};
use std::alloc::Global;
use std::marker::Model;

/// How often the panel is polled at most before what was found is taken.
const MOST_LOOKS: u8 = 16;

/// What was found on the way of a side: bytes, or else the end of its connection.
#[derive(Drop)]
pub struct Finding {
    pub side: Side,
    pub bytes: Option<Vec<u8>>,
}

/// What is held, and how many more times the panel is polled at most before that is taken.
#[derive(Drop)]
pub struct Held {
    finding: Option<Finding>,
    looks: u8,
}

impl Model for Held {
    ghost use Rattle.std.specs.Prelude.{◌≤◌, IfSome, option_map, vec_len};
    ghost use Rattle.node_run.specs.Held.{HeldValue, most_bytes, most_looks, seen_finding};

    ghost Value = { HeldValue };

    ghost view = { λ h. record {
      finding =
          option_map
          (λ found. seen_finding found.side (option_map (λ bytes. bytes.items) found.bytes))
          h.finding;
      looks = h.looks;
    } };

    ghost invariant = { λ h. (h.looks ≤ most_looks)
        × IfSome h.finding (λ found. IfSome found.bytes (λ bytes. vec_len bytes ≤ most_bytes)) };
}

impl Held {
    /// Nothing was found yet.
    pub fn nothing() -> Held
        ensures { result ≡ nothing_held }
    {
        Held {
            finding: None,
            looks: 0,
        }
    }

    /// Whether something is held.
    pub fn is_some(&self) -> bool
        ensures { result ≡ is_some self.now.finding }
    {
        self.finding.is_some()
    }

    /// Whether the panel is to be polled before that is taken.
    pub fn looks(&self) -> bool
        ensures { result ≡ nat_lt 0 self.now.looks }
    {
        self.looks > 0
    }

    /// The panel isn't polled without end.
    pub fn has_few_looks(&self)
        ensures { HasFewLooks self.now }
    {
        let _looks = self.looks;
    }

    /// Bytes were found on the way of a side.
    pub fn hold_bytes(&mut self, alloc: Global, side: Side, bytes: &[u8]) -> Result<(), Memory>
        requires { length bytes.now ≤ most_bytes }
        ensures { OnOk result (self.new ≡ holds side (Some bytes.now)) }
    {
        let mut held = Vec::new(alloc);
        match held.extend_from_slice(bytes) {
            Ok(()) => {
                self.hold(side, Some(held));
                Ok(())
            }
            Err(_) => Err(Memory),
        }
    }

    /// The end of a side's connection was found.
    pub fn hold_end(&mut self, side: Side)
        ensures { self.new ≡ holds side None }
    {
        self.hold(side, None);
    }

    fn hold(&mut self, side: Side, bytes: Option<Vec<u8>>)
        requires { IfSome bytes (λ bytes. vec_len bytes ≤ most_bytes) }
        ensures { self.new ≡ holds side (option_map (λ bytes. bytes.items) bytes) }
    {
        self.finding = Some(Finding { side, bytes });
        self.looks = MOST_LOOKS;
    }

    /// The panel was polled, and maybe more is there.
    pub fn look(&mut self, more: bool)
        ensures { self.new
            ≡ record self.old { looks = looks_behind more self.old.looks } }
    {
        self.looks = if more {
            self.looks.saturating_sub(1)
        } else {
            0
        };
    }

    /// What is held is taken.
    pub fn take(&mut self) -> Option<Finding>
        ensures taken { option_map
            (λ found. seen_finding found.side (option_map (λ bytes. bytes.items) found.bytes))
            result
            ≡ self.old.finding }
        ensures short { IfSome result
            (λ found. IfSome found.bytes (λ bytes. vec_len bytes ≤ most_bytes)) }
        ensures left { self.new ≡ nothing_held }
    {
        self.looks = 0;
        self.finding.take()
    }
}
