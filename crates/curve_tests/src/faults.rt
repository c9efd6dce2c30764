//! Tests of the texts of a curve's faults.

use crate::asserts::assert_holds;
use station_curve::CurveFault;
use std::alloc::Global;

const FAULTS: &[(CurveFault, &str)] = &[
    (CurveFault::Hydraulic, "a hydraulic current"),
    (CurveFault::TooLarge { year: 1999 }, "too large in 1999"),
    (CurveFault::TooSteep { year: -2 }, "too steep in -2"),
    (CurveFault::NoMemory, "no memory"),
];

fn is_printed(alloc: Global, fault: CurveFault, text: &str) -> bool {
    match format!(in alloc; "{fault}") {
        Ok(printed) => printed.as_str() == text,
        Err(_) => false,
    }
}

#[test]
fn faults_are_printed(rt: HostRuntime) {
    for &(fault, text) in FAULTS {
        assert_holds(&rt, is_printed(rt.alloc(), fault, text), text);
    }
}
