//! Tables of subordinate stations.

use crate::asserts::assert_holds;
use station_table::{
    Basis, Offset, OffsetFault, OffsetTable, OffsetWhy, Offsets, Slack, read_offsets, sample_rows,
    worked_bases, worked_fields, worked_tables,
};
use std::process::Abort;

const DOCKS: &[u8] =
    b"name,reference,high_add,low_add,high_times,low_times,high_plus,low_plus\r\nDock,Pier,0:30,-0:10,1.1,0.9,0.1,0\r\n\
    \"Outer, east\",Pier,,,,,,\nDock,Lost,0:00,0:00,1,1,0,0\nPier,Lost,0:00,0:00,1,1,0,0\nBuoy,Lost,,,,,,";

const GATES: &[u8] =
    b"name,reference,high_add,low_add,high_times,low_times,high_plus,low_plus,flood_add,ebb_add\n\
    Gate,Pier,,,,,,,0:05,-24:00\nHut,Pier,,,,,,,,\n";

#[test]
fn rows_are_read(rt: HostRuntime) -> Result<(), OffsetFault> {
    let table = read_offsets(rt.alloc(), DOCKS)?;
    check_docks(&rt, table.as_slice());
    Ok(())
}

fn check_docks(rt: &impl Abort, rows: &[Offsets]) {
    assert!(rt; rows.len() == 5);
    check_dock(rt, &rows[0]);
    assert!(rt; rows[1].name.as_str() == "Outer, east");
    assert!(rt; rows[1].high == Offset::USUAL);
}

fn check_dock(rt: &impl Abort, dock: &Offsets) {
    let high = Offset {
        add: 30,
        times: 1_100_000,
        plus: 100_000,
    };
    let low = Offset {
        add: -10,
        times: 900_000,
        plus: 0,
    };
    assert_holds(rt, dock.name.as_str() == "Dock", "name");
    assert_holds(rt, dock.reference.as_str() == "Pier", "reference");
    assert_holds(rt, dock.high == high, "high waters");
    assert_holds(rt, dock.low == low, "low waters");
    assert_holds(rt, dock.slack == None, "slacks");
}

#[test]
fn a_new_table_is_empty(rt: HostRuntime) {
    assert!(rt; OffsetTable::new(rt.alloc()).as_slice().len() == 0);
}

#[test]
fn slack_times_are_read(rt: HostRuntime) -> Result<(), OffsetFault> {
    let table = read_offsets(rt.alloc(), GATES)?;
    check_gates(&rt, table.as_slice());
    Ok(())
}

fn check_gates(rt: &impl Abort, rows: &[Offsets]) {
    assert!(rt; rows.len() == 2);
    let flood_add = 5;
    let ebb_add = -1440;
    assert!(rt; rows[0].slack == Some(Slack { flood_add, ebb_add }));
    assert!(rt; rows[1].slack == None);
}

#[test]
fn a_station_of_the_file_is_its_own_basis(rt: HostRuntime) {
    let basis = Basis {
        station: 0,
        row: None,
        high: Offset::USUAL,
        low: Offset::USUAL,
        slack: None,
    };
    assert!(rt; basis.equal() && basis.plain());
}

#[test]
fn reasons_in_words(rt: HostRuntime) {
    assert!(rt; OffsetWhy::NotUtf8.text() == "not UTF-8" && OffsetWhy::NotUtf8.number() == 6);
}

#[test]
fn worked_rows_stand(_rt: HostRuntime) {
    worked_fields();
    sample_rows();
    worked_tables();
    worked_bases();
}
