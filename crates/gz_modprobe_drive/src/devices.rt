//! The devices of a machine and their aliases, as /sys/bus has them (sysfs(5)).

use crate::listing::names_of;
use crate::sys::text_in;
use answer_reasons::Device;
use modprobe_files::{Host, System, joined};
use std::alloc::AllocError;

const BUSES: &[u8] = b"/sys/bus";

/// Adds the device of a folder, if it has an alias that can be read.
fn add_device<S: System>(
    host: &Host<'_, S>,
    folder: Vec<u8>,
    devices: &mut Vec<Device>,
) -> Result<(), AllocError> {
    let Some(text) = text_in(host, &folder, b"modalias")? else {
        return Ok(());
    };
    let alias = Vec::from_slice(host.alloc(), text.strip_suffix(b"\n").unwrap_or(&text))?;
    if !alias.is_empty() {
        devices.push(Device { folder, alias })?;
    }
    Ok(())
}

fn add_bus<S: System>(
    host: &Host<'_, S>,
    bus: &[u8],
    devices: &mut Vec<Device>,
) -> Result<(), AllocError> {
    let alloc = host.alloc();
    let place = joined(alloc, BUSES, b"/", bus)?;
    let folder = joined(alloc, &place, b"/devices", b"")?;
    let names = names_of(host, &folder)?;
    for name in names.as_deref().unwrap_or(&[]) {
        let own = joined(alloc, &folder, b"/", name)?;
        add_device(host, own, devices)?;
    }
    Ok(())
}

/// The devices of all buses that have an alias, in the order of the names of buses and devices. It fails only if memory runs
/// out.
pub(crate) fn read_devices<S: System>(host: &Host<'_, S>) -> Result<Vec<Device>, AllocError> {
    let mut devices = Vec::new(host.alloc());
    let buses = names_of(host, BUSES)?;
    for bus in buses.as_deref().unwrap_or(&[]) {
        add_bus(host, bus, &mut devices)?;
    }
    Ok(devices)
}
