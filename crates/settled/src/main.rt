// The settled cases of document 01, and of document 02's requests, that are not proved as rows of a statement: each is run, and its file 'stdout' has
// what the documents say of it.
#![tactic(auto)]

ghost use Rattle.std.specs.Prelude.{◌≡◌, length};

use answer_lines::answers;
use calls::files;
use format::{DayHead, Refusal, Written};
use machine::Machine;
use output::write;
use page::texts::{part, put};
use writing::write_day;

// The room for a file, a page or a block.
const ROOM: usize = 4096;

// ---- lines

// Behind what a case is called, what the check answers of its file.
fn answered(rt: &impl Machine, page: &mut [u8], at: usize, file: &[u8]) {
    let p = put(page, at, b": ");
    let q = files::checked(file, page, p);
    write(rt, page, q);
}

// Two texts with a third between them.
fn pair(page: &mut [u8], at: usize, a: &[u8], between: &[u8], b: &[u8]) -> usize {
    let p = put(page, at, a);
    let q = put(page, p, between);
    put(page, q, b)
}

fn checked(rt: &impl Machine, page: &mut [u8], name: &[u8], file: &[u8]) {
    let p = put(page, 0, name);
    answered(rt, page, p, file);
}

// ---- files with one half-hour channel

fn channel(file: &mut [u8]) -> usize {
    put(
        file,
        0,
        b"100,NEM12,200401011200,MDP1,RETAILER\r\n200,NEM1234567,E1,1,E1,N1,METER1,kWh,30,\r\n",
    )
}

// A day of a date and a mark (quality, reason and description), each of whose 48 values is 1.
fn day(file: &mut [u8], at: usize, date: &[u8], mark: &[u8]) -> usize {
    let p = put(file, at, b"300,");
    let q = put(file, p, date);
    let r = put(
        file,
        q,
        b",1,1,1,1,1,1,1,1,1,1,1,1,1,1,1,1,1,1,1,1,1,1,1,1,1,1,1,1,1,1,1,1,1,1,1,1,1,1,1,1,1,1,1,1,1,1,1,1,",
    );
    let s = put(file, r, mark);
    put(file, s, b",20040102010203,\r\n")
}

// The channel with a day and the records behind it.
fn file_of(file: &mut [u8], date: &[u8], mark: &[u8], records: &[u8]) -> usize {
    let p = channel(file);
    let q = day(file, p, date, mark);
    put(file, q, records)
}

fn day_case(
    rt: &impl Machine,
    page: &mut [u8],
    name: &[u8],
    date: &[u8],
    mark: &[u8],
    records: &[u8],
) {
    let mut file = [0u8; ROOM];
    let n = file_of(&mut file, date, mark, records);
    checked(rt, page, name, part(&file, 0, n));
}

// ---- read times

// A day of quality A, and under it a 500 that was read at this time.
fn read_case(rt: &impl Machine, date: &[u8], time: &[u8]) {
    let mut page = [0u8; ROOM];
    let mut file = [0u8; ROOM];
    let p = file_of(&mut file, date, b"A,,", b"500,O,,");
    let q = put(&mut file, p, time);
    let n = put(&mut file, q, b",\r\n900\r\n");
    let a = pair(&mut page, 0, date, b" read at ", time);
    answered(rt, &mut page, a, part(&file, 0, n));
}

fn midnights(rt: &impl Machine) {
    read_case(rt, b"20031220", b"20031220000001");
    read_case(rt, b"20031220", b"20031220235959");
    read_case(rt, b"20031220", b"20031220000000");
    read_case(rt, b"20031220", b"20031221000001");
    read_case(rt, b"20031220", b"20031219235959");
    read_case(rt, b"21991231", b"22000101000000");
    read_case(rt, b"21991230", b"22000101000000");
    read_case(rt, b"21991231", b"22000101000001");
}

// 28 February of common years and of leap years, a month's end and a year's.
fn days_after(rt: &impl Machine) {
    read_case(rt, b"20030228", b"20030301000000");
    read_case(rt, b"20040228", b"20040229000000");
    read_case(rt, b"20040228", b"20040301000000");
    read_case(rt, b"20040229", b"20040301000000");
    read_case(rt, b"20000228", b"20000229000000");
    read_case(rt, b"20000228", b"20000301000000");
    read_case(rt, b"21000228", b"21000301000000");
    read_case(rt, b"21000228", b"21000229000000");
    read_case(rt, b"20030930", b"20031001000000");
    read_case(rt, b"20031231", b"20040101000000");
}

// ---- the sample 250

// Its file, with this time of the previous read, and these qualities of both.
fn thirteen(file: &mut [u8], time: &[u8], previous: &[u8], current: &[u8]) -> usize {
    let p = put(
        file,
        0,
        b"100,NEM13,200301011534,MDP1,Retailer1\r\n250,1234567890,1141,01,11,11,METSERG6,E,000021.2,",
    );
    let q = put(file, p, time);
    let r = put(file, q, b",");
    let s = put(file, r, previous);
    let t = put(file, s, b",,,000534.5,20040201100030,");
    let u = put(file, t, current);
    put(
        file,
        u,
        b",77,,343.5,kWh,20040509,20040202125010,20040203000130\r\n900\r\n",
    )
}

fn sample(rt: &impl Machine, page: &mut [u8]) {
    let mut file = [0u8; ROOM];
    let n = thirteen(&mut file, b"20031001103230", b"A", b"E64");
    checked(
        rt,
        page,
        b"the sample 250 of section 5.3",
        part(&file, 0, n),
    );
    let p = put(page, 0, b"its quantity: ");
    let q = files::totalled(part(&file, 0, n), 0, page, p);
    write(rt, page, q);
}

// ---- days that are written whole

// What is read of the block in a file.
fn read_back(rt: &impl Machine, block: &[u8]) {
    let mut file = [0u8; ROOM];
    let p = channel(&mut file);
    let q = put(&mut file, p, block);
    let n = put(&mut file, q, b"900\r\n");
    let mut page = [0u8; ROOM];
    let a = put(&mut page, 0, b"read back: ");
    let b = files::day(part(&file, 0, n), 0, 48, &mut page, a);
    write(rt, &page, b);
}

// What a case is called, the answer, and behind its line the block and what is read from it.
fn block(
    rt: &impl Machine,
    page: &mut [u8],
    name: &[u8],
    x: Result<Written, Refusal>,
    room: &[u8],
) {
    let p = put(page, 0, name);
    let q = put(page, p, b": ");
    let r = answers::written(page, q, x);
    let s = put(page, r, b"\n");
    write(rt, page, s);
    if let Ok(w) = x {
        write(rt, room, w.bytes);
        read_back(rt, part(room, 0, w.bytes));
    }
}

// 3, and from the twenty-first on 4.
fn values() -> [u64; 48]
    ensures { 48 ≡ length result }
{
    let mut list = [3000000u64; 48];
    list[20..].fill(4000000);
    list
}

fn bytes(before: u8, behind: u8) -> [u8; 48]
    ensures { 48 ≡ length result }
{
    let mut list = [before; 48];
    list[20..].fill(behind);
    list
}

// The unit's number.
const KWH: u8 = 1;

fn written_in(
    rt: &impl Machine,
    page: &mut [u8],
    name: &[u8],
    update: u64,
    values: &[u64],
    flags: &[u8],
    methods: &[u8],
    room: &mut [u8],
) {
    let day = DayHead {
        date: 20030922,
        length: 30,
        update,
        load: 0,
        unit: KWH,
    };
    let reasons = [65535u16; 48];
    let none = [0usize; 48];
    let x = write_day(
        day, values, flags, methods, &reasons, &none, &none, b"", room,
    );
    block(rt, page, name, x, room);
}

// A day whose first twenty intervals have a flag without a method, and the others a flag and a method.
fn written(
    rt: &impl Machine,
    page: &mut [u8],
    name: &[u8],
    update: u64,
    before: u8,
    behind: u8,
    method: u8,
) {
    let values = values();
    let flags = bytes(before, behind);
    let methods = bytes(255, method);
    let mut room = [0u8; ROOM];
    written_in(rt, page, name, update, &values, &flags, &methods, &mut room);
}

// What only a read time may be.
fn not_a_read(rt: &impl Machine, page: &mut [u8]) {
    let mut file = [0u8; ROOM];
    let n = thirteen(&mut file, b"22000101000000", b"A", b"E64");
    checked(rt, page, b"a 250 read at 22000101000000", part(&file, 0, n));
    written(
        rt,
        page,
        b"a day updated at 22000101000000",
        22000101000000,
        b'A',
        b'E',
        52,
    );
}

// ---- null data

// A 300 with this mark.
fn mark_case(rt: &impl Machine, mark: &[u8]) {
    let mut page = [0u8; ROOM];
    let p = put(&mut page, 0, b"a 300 of ");
    let q = put(&mut page, p, mark);
    let mut file = [0u8; ROOM];
    let n = file_of(&mut file, b"20040101", mark, b"900\r\n");
    answered(rt, &mut page, q, part(&file, 0, n));
}

fn null_days(rt: &impl Machine) {
    mark_case(rt, b"N,,");
    mark_case(rt, b"N,77,");
    mark_case(rt, b"N,0,no meter");
    mark_case(rt, b"N,0,");
    mark_case(rt, b"N14,,");
    mark_case(rt, b"n,,");
}

// A V day whose 400s end with these marks: one of intervals 1 to 24, one of 25 to 48.
fn runs_case(rt: &impl Machine, before: &[u8], behind: &[u8]) {
    let mut page = [0u8; ROOM];
    let a = put(&mut page, 0, b"400s of ");
    let b = pair(&mut page, a, before, b" and ", behind);
    let mut file = [0u8; ROOM];
    let p = file_of(&mut file, b"20040101", b"V,,", b"400,1,24,");
    let q = pair(&mut file, p, before, b"\r\n400,25,48,", behind);
    let n = put(&mut file, q, b"\r\n900\r\n");
    answered(rt, &mut page, b, part(&file, 0, n));
}

fn null_runs(rt: &impl Machine) {
    runs_case(rt, b"A,,", b"N,,");
    runs_case(rt, b"N,,", b"A,,");
    runs_case(rt, b"N,,", b"N,77,");
    runs_case(rt, b"N,,", b"N,,");
    runs_case(rt, b"A,,", b"N14,,");
    runs_case(rt, b"A,,", b"n,,");
    runs_case(rt, b"A,,", b"N,0,");
    let mut page = [0u8; ROOM];
    day_case(
        rt,
        &mut page,
        b"400,1,48,N,,",
        b"20040101",
        b"V,,",
        b"400,1,48,N,,\r\n900\r\n",
    );
}

// A 250 with these qualities.
fn reads_case(rt: &impl Machine, previous: &[u8], current: &[u8]) {
    let mut page = [0u8; ROOM];
    let a = put(&mut page, 0, b"a 250 of ");
    let b = pair(&mut page, a, previous, b" and ", current);
    let mut file = [0u8; ROOM];
    let n = thirteen(&mut file, b"20031001103230", previous, current);
    answered(rt, &mut page, b, part(&file, 0, n));
}

fn null_reads(rt: &impl Machine) {
    reads_case(rt, b"N", b"E64");
    reads_case(rt, b"A", b"N");
}

// Its values count as they stand.
fn null_total(rt: &impl Machine) {
    let mut page = [0u8; ROOM];
    let mut file = [0u8; ROOM];
    let n = file_of(&mut file, b"20040101", b"N,,", b"900\r\n");
    let p = put(&mut page, 0, b"the total of a day of N: ");
    let q = files::totalled(part(&file, 0, n), 0, &mut page, p);
    write(rt, &page, q);
}

fn null_written(rt: &impl Machine) {
    let mut page = [0u8; ROOM];
    written(
        rt,
        &mut page,
        b"a day of A and N",
        20030922092231,
        b'A',
        b'N',
        255,
    );
    written(
        rt,
        &mut page,
        b"a day of N",
        20030922092231,
        b'N',
        b'N',
        255,
    );
    written(
        rt,
        &mut page,
        b"a day of A and N14",
        20030922092231,
        b'A',
        b'N',
        14,
    );
}

// ---- dates, covers and ends

fn dates(rt: &impl Machine, page: &mut [u8]) {
    day_case(rt, page, b"20040229", b"20040229", b"A,,", b"900\r\n");
    day_case(rt, page, b"20030229", b"20030229", b"A,,", b"900\r\n");
}

fn covers(rt: &impl Machine, page: &mut [u8]) {
    day_case(
        rt,
        page,
        b"1 to 31 and then a 500",
        b"20040101",
        b"V,,",
        b"400,1,31,A,,\r\n500,O,,,\r\n900\r\n",
    );
    day_case(
        rt,
        page,
        b"400,1,48,A,,",
        b"20040101",
        b"V,,",
        b"400,1,48,A,,\r\n900\r\n",
    );
}

fn ends(rt: &impl Machine, page: &mut [u8]) {
    checked(rt, page, b"the empty file", b"");
    day_case(rt, page, b"900,", b"20040101", b"A,,", b"900,\r\n");
}

fn main(rt: HostRuntime) {
    let mut page = [0u8; ROOM];
    dates(&rt, &mut page);
    covers(&rt, &mut page);
    ends(&rt, &mut page);
    sample(&rt, &mut page);
    written(
        &rt,
        &mut page,
        b"the day written whole",
        20030922092231,
        b'A',
        b'E',
        52,
    );
    midnights(&rt);
    days_after(&rt);
    not_a_read(&rt, &mut page);
    null_days(&rt);
    null_runs(&rt);
    null_reads(&rt);
    null_total(&rt);
    null_written(&rt);
}
