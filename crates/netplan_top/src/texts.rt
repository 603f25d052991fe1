//! The texts that the program prints.

mod checked;
mod demo;
mod frame;
mod network;

pub(crate) use checked::{accepted, overflowed, rejected};
pub(crate) use demo::summary_text;
pub(crate) use frame::refused;
pub(crate) use network::net_text;

/// The usage text: the commands that there are.
pub const USAGE: &[u8] =
    b"netplan-usage,1\nusage,solve [--workers N] [--budget N] [--log]\nusage,check\nusage,expand\nusage,demo N\nend\n";
