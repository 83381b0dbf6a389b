//! The numbers of the enumerations.

ghost use Rattle.std.specs.Prelude.{◌≡◌, option_map};
ghost use Rattle.hermes_horizontal.specs.Parts.{ping_number, severity_number, quality_number, flip_number, transfer_number, of_quality, of_flip};
ghost use Rattle.hermes_horizontal.specs.Values.{numbered};

use crate::message::Ping;
use line_base::{Flip, Quality, Severity, Transfer};

pub fn ping_number(ping: Ping) -> u32
    ensures { result ≡ ping_number ping }
{
    match ping {
        Ping::Ask => 1,
        Ping::Answer => 2,
    }
}

pub fn severity_number(severity: Severity) -> u32
    ensures { result ≡ severity_number severity }
{
    match severity {
        Severity::Fatal => 1,
        Severity::Error => 2,
        Severity::Warning => 3,
        Severity::Info => 4,
    }
}

pub fn quality_number(quality: Quality) -> u32
    ensures { result ≡ quality_number quality }
{
    match quality {
        Quality::Unknown => 0,
        Quality::Good => 1,
        Quality::Failed => 2,
    }
}

pub fn optional_quality_number(quality: Option<Quality>) -> Option<u32>
    ensures { option_map numbered result ≡ option_map of_quality quality }
{
    match quality {
        Some(quality) => Some(quality_number(quality)),
        None => None,
    }
}

pub fn flip_number(flip: Flip) -> u32
    ensures { result ≡ flip_number flip }
{
    match flip {
        Flip::Unknown => 0,
        Flip::TopUp => 1,
        Flip::BottomUp => 2,
    }
}

pub fn optional_flip_number(flip: Option<Flip>) -> Option<u32>
    ensures { option_map numbered result ≡ option_map of_flip flip }
{
    match flip {
        Some(flip) => Some(flip_number(flip)),
        None => None,
    }
}

pub fn transfer_number(state: Transfer) -> u32
    ensures { result ≡ transfer_number state }
{
    match state {
        Transfer::NotStarted => 1,
        Transfer::Incomplete => 2,
        Transfer::Complete => 3,
    }
}
