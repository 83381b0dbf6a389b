ghost use Rattle.std.specs.Prelude.{◌≡◌, ◌≤◌, ◌<◌, ◌^◌, true, false, Err, IfOk, IfErr, OnOk};
ghost use Rattle.machine_port.specs.Port.{new_port};
ghost use Rattle.hermes_machine.specs.Made.{IsIdText, is_profile, profile_of};

use line_base::{Memory, Text, TextError};
use machine_port::Port;
use node_core::NodeProfile;
use std::alloc::Global;

/// How many bytes a profile has.
const PROFILE_BYTES: u32 = 32;

/// The most bytes of an id text.
const MOST_ID_BYTES: usize = 64;

/// From what a machine is made, beside its id text.
#[repr(C)]
#[derive(Clone, Copy)]
pub struct HermesProfile {
    /// How many bytes this has, 32.
    pub size: u32,
    /// The number in the ids that it makes, at least 1.
    pub number: u32,
    /// The number of its lane, 1 to 999.
    pub lane: u32,
    /// For how many boards it has places, 1 to 1,024.
    pub capacity: u32,
    /// 1 where its body is a segment with signals, else 0.
    pub bridge: u32,
    /// 0.
    pub zero: u32,
    /// How many ids it made before, below 2^48.
    pub used: u64,
}

/// Why no machine is made.
#[derive(Clone, Copy, Debug, PartialEq, Eq)]
pub enum NotMade {
    /// A number is out of its range.
    BadProfile,
    /// The id text is none.
    BadText,
    Memory,
}

/// Whether each number is within its range.
#[tactic(auto, unfolding(crate::specs::Made::is_profile))]
fn is_profile(profile: &HermesProfile) -> bool
    ensures is { result ≡ is_profile profile.now }
    ensures least { result ≡ true → 1 ≤ profile.now.capacity }
    ensures most { result ≡ true → profile.now.capacity ≤ 1024 }
    ensures used { result ≡ true → profile.now.used < 2 ^ 48 }
{
    profile.size == PROFILE_BYTES
        && 1 <= profile.number
        && 1 <= profile.lane
        && profile.lane <= 999
        && 1 <= profile.capacity
        && profile.capacity <= 1024
        && profile.bridge <= 1
        && profile.zero == 0
        && profile.used < 0x1_0000_0000_0000
}

/// The id text that these bytes are.
fn id_text(alloc: Global, bytes: &[u8]) -> Result<Text, NotMade>
    ensures text { IfOk result (λ text. text ≡ bytes.now) }
    ensures is { OnOk result (IsIdText bytes.now) }
    ensures none { ¬ (IsIdText bytes.now) → result ≡ Err NotMade.BadText }
    ensures memory { IsIdText bytes.now → IfErr result (λ why. why ≡ NotMade.Memory) }
{
    if bytes.is_empty() || bytes.len() > MOST_ID_BYTES {
        return Err(NotMade::BadText);
    }
    match Text::read(alloc, bytes) {
        Ok(text) => Ok(text),
        Err(TextError::Memory) => Err(NotMade::Memory),
        Err(_) => Err(NotMade::BadText),
    }
}

/// The machine of a profile and the bytes of its id text.
pub fn made(alloc: Global, profile: &HermesProfile, name: &[u8]) -> Result<Box<Port>, NotMade>
    ensures made { IfOk result
        (λ machine. machine.value ≡ new_port (profile_of profile.now name.now)) }
    ensures bad_profile { is_profile profile.now ≡ false → result ≡ Err NotMade.BadProfile }
    ensures bad_text { is_profile profile.now ≡ true → ¬ (IsIdText name.now)
        → result ≡ Err NotMade.BadText }
    ensures memory { is_profile profile.now ≡ true → IsIdText name.now
        → IfErr result (λ why. why ≡ NotMade.Memory) }
{
    if !is_profile(profile) {
        return Err(NotMade::BadProfile);
    }
    match id_text(alloc, name) {
        Ok(machine) => match named(alloc, profile, machine) {
            Ok(node) => Ok(node),
            Err(_) => Err(NotMade::Memory),
        },
        Err(why) => Err(why),
    }
}

/// The machine of a profile and its id text, on the heap.
fn named(alloc: Global, profile: &HermesProfile, machine: Text) -> Result<Box<Port>, Memory>
    requires least { 1 ≤ profile.now.capacity }
    requires most { profile.now.capacity ≤ 1024 }
    requires used { profile.now.used < 2 ^ 48 }
    ensures { IfOk result (λ port. port.value ≡ new_port (profile_of profile.now machine)) }
{
    let whole = NodeProfile {
        number: profile.number,
        machine,
        lane: profile.lane,
        capacity: profile.capacity,
        used: profile.used,
        bridge: profile.bridge == 1,
    };
    boxed(alloc, Port::new(alloc, whole)?)
}

/// A machine on the heap.
fn boxed(alloc: Global, port: Port) -> Result<Box<Port>, Memory>
    ensures { IfOk result (λ machine. machine.value ≡ port) }
{
    Ok(Box::new(alloc, port)?)
}
