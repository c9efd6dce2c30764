//! The texts of faults.

use cert_text::CertFault;
use std::alloc::Global;
use std::fmt::Display;
use tide_edge::{Failed, ReadAllFault, WriteFailed};
use zone_time::ZoneFault;

/// Returns true if `fault` is printed as `text`.
fn prints<T: Display>(alloc: Global, fault: &T, text: &str) -> bool {
    let printed = format!(in alloc; "{fault}");
    printed.is_ok_and(|printed| printed.as_str() == text)
}

#[test]
fn faults_of_certificates_are_printed(rt: HostRuntime) {
    let alloc = rt.alloc();
    let fault = CertFault::NoMemory;
    assert!(rt; prints(alloc, &fault, "no memory for the certificate"));
    let fault = CertFault::NotACertificate { line: u32::MAX };
    assert!(rt; prints(alloc, &fault, "line 4294967295 is of no certificate"));
}

#[test]
fn faults_of_zones_are_printed(rt: HostRuntime) {
    let alloc = rt.alloc();
    assert!(rt; prints(alloc, &ZoneFault::BadZone, "a bad zone file"));
    assert!(rt; prints(alloc, &ZoneFault::NoMemory, "no memory for the zone"));
}

#[test]
fn faults_of_files_are_printed(rt: HostRuntime) {
    let alloc = rt.alloc();
    assert!(rt; prints(alloc, &ReadAllFault::Failed, "the file can't be read"));
    assert!(rt; prints(alloc, &ReadAllFault::TooLong, "the file is too long"));
    assert!(rt; prints(alloc, &ReadAllFault::NoMemory, "no memory for the file"));
}

#[test]
fn failed_calls_are_printed(rt: HostRuntime) {
    let alloc = rt.alloc();
    let text = "a call on files, a sink, a clock or a door failed";
    assert!(rt; prints(alloc, &Failed, text));
    let fault = WriteFailed { sent: 7 };
    assert!(rt; prints(alloc, &fault, "a write failed after 7 bytes"));
}
