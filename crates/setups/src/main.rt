// Document 01's set-ups on the compiled code, and cases of document 02's requests: a line a case, `3 ok` or
// `P1.2 ok`, or the bytes that came out instead. The cases marked *, and those of requests, are also rows of the
// tables of crates `cases` and `cases_requests`, which are proved. A case is sixteen bytes:
// what came out, and zeros after it.
#![tactic(auto)]

ghost use Rattle.std.specs.Prelude.{◌≤◌, length};

use blit::block_transfer;
use blit_frame::{Area, Transfer};
use blit_raster::raster_byte;
use cases::{
    after_read, after_write as after, alters, byte_after, byte_before, byte_read as seen,
    read_number, write_number as refusal,
};
use cases_requests::{written_number, written_value};
use chip::Chip;
use chip_registers::Group;
use memory::answer_number;
use script_commands::translate;
use std::fmt::InlineText;
use std::io::Write;

// A case with these bytes, and zeros after them.
fn case(bytes: &[u8]) -> [u8; 16]
    requires { length bytes.now ≤ 16 }
{
    let mut out = [0u8; 16];
    out[..bytes.len()].copy_from_slice(bytes);
    out
}

// The bytes that came out, each in one write.
fn print_bytes<W: Write>(out: &mut W, got: [u8; 16]) {
    for byte in got {
        let text = InlineText::<3>::of(format_args!(" {byte:02X}"));
        let _ = out.write_all(text.as_str().as_bytes());
    }
}

// The line of a case.
fn report<W: Write>(out: &mut W, number: u64, got: [u8; 16], want: &[u8])
    requires { length want.now ≤ 16 }
{
    let _ = write!(out, "{number}");
    if got == case(want) {
        let _ = out.write_all(b" ok");
    } else {
        let _ = out.write_all(b" got");
        print_bytes(out, got);
    }
    let _ = out.write_all(b"\n");
}

// The line of a case of a request. Each of its parts is written, also behind one that the output does not take.
fn report_request<W: Write>(out: &mut W, request: u64, number: u64, got: [u8; 16], want: &[u8])
    requires { length want.now ≤ 16 }
{
    let _ = out.write_all(b"P");
    let _ = write!(out, "{request}");
    let _ = out.write_all(b".");
    report(out, number, got, want);
}

// 1. XR60, XR67, MR1F written FFh.
fn case_1() -> [u8; 16] {
    let a = after(after(Chip::new(0x02, 0x00), 0x3D6, 0x60), 0x3D7, 0xFF);
    let b = after(after(a, 0x3D6, 0x67), 0x3D7, 0xFF);
    let c = after(after(b, 0x3D2, 0x1F), 0x3D3, 0xFF);
    case(&[seen(a, 0x3D7), seen(b, 0x3D7), seen(c, 0x3D3)])
}

// 2. First pin byte 02h: XR70.
fn case_2() -> [u8; 16] {
    case(&[seen(after(Chip::new(0x02, 0x00), 0x3D6, 0x70), 0x3D7)])
}

// 3. First pin byte 00h: reading 3D7h, number and byte.
fn case_3() -> [u8; 16] {
    let c = Chip::new(0x00, 0x00);
    case(&[read_number(c, 0x3D7), seen(c, 0x3D7)])
}

// 4. CR07 = 00h, CR11 = 80h, then FFh to CR07.
fn case_4() -> [u8; 16] {
    let a = after(after(Chip::new(0x02, 0x00), 0x3B4, 0x07), 0x3B5, 0x00);
    let b = after(after(a, 0x3B4, 0x11), 0x3B5, 0x80);
    case(&[seen(after(after(b, 0x3B4, 0x07), 0x3B5, 0xFF), 0x3B5)])
}

// 5. MSR bit 0 = 1 and the CR index 0Ah: 3B5h reads FFh, and a write to 3B4h leaves the index.
fn case_5() -> [u8; 16] {
    let c = after(after(Chip::new(0x02, 0x00), 0x3C2, 0x01), 0x3D4, 0x0A);
    case(&[seen(c, 0x3B5), seen(after(c, 0x3B4, 0x55), 0x3D4)])
}

// 6. 3D6h gets 61h, 3D7h gets 08h, 3D7h gets 43h: XR61 and XR60.
fn case_6() -> [u8; 16] {
    let a = after(Chip::new(0x02, 0x00), 0x3D6, 0x61);
    let c = after(after(a, 0x3D7, 0x08), 0x3D7, 0x43);
    case(&[c.get(Group::Xr, 0x61), c.get(Group::Xr, 0x60)])
}

// 7. Six-bit mode, PALMASK FFh, 3C8h gets 255, data 63, 0, 21, 255, 2, 3: entry 255, shown, and entry 0.
fn case_7() -> [u8; 16] {
    let a = after(after(Chip::new(0x02, 0x00), 0x3C6, 0xFF), 0x3C8, 255);
    let b = after(after(after(a, 0x3C9, 63), 0x3C9, 0), 0x3C9, 21);
    let c = after(after(after(b, 0x3C9, 255), 0x3C9, 2), 0x3C9, 3);
    let last = c.entry(255);
    let light = c.shown(255);
    let first = c.entry(0);
    case(&[
        last.red,
        last.green,
        last.blue,
        light.red,
        light.green,
        light.blue,
        first.red,
        first.green,
        first.blue,
    ])
}

// 8. P = F0h, S = CCh, D = AAh, code B8h.
fn case_8() -> [u8; 16] {
    case(&[raster_byte(0xB8, 0xF0, 0xCC, 0xAA)])
}

// One line in a memory of 4,096 bytes that begins 1, 2, 3, 4, 5: the number, and the first five bytes.
fn one_line(code: u8, leftward: bool, width: usize, source: usize, destination: usize) -> [u8; 16] {
    let mut mem = [0u8; 4096];
    mem[0] = 1;
    mem[1] = 2;
    mem[2] = 3;
    mem[3] = 4;
    mem[4] = 5;
    let to = Area {
        address: destination,
        span: 0,
    };
    let from = Area {
        address: source,
        span: 0,
    };
    let t = Transfer {
        destination: to,
        source: from,
        width,
        height: 1,
        code,
        leftward,
        upward: false,
        pattern_address: 0,
        pattern_row: 0,
    };
    let answer = block_transfer(&mut mem, t);
    case(&[
        answer_number(answer),
        mem[0],
        mem[1],
        mem[2],
        mem[3],
        mem[4],
    ])
}

// 11. Memory 4,096, code F0h, pattern 0, destination 4,095, height 1, forward: widths 1 and 2.
fn case_11() -> [u8; 16] {
    let one = one_line(0xF0, false, 1, 0, 4095);
    let two = one_line(0xF0, false, 2, 0, 4095);
    case(&[one[0], two[0]])
}

// One step written as a file and translated: the first sixteen bytes of its commands.
fn commands_of(step: [u8; 6]) -> [u8; 16] {
    let mut file = [0u8; 512];
    let _ = script_writer::write(&step, &mut file);
    let mut out = [0u8; 32];
    let _ = translate(&file, &mut out);
    case(&out[..16])
}

// 12. FIELD XR80, mask 80h, value 80h: its commands.
fn case_12() -> [u8; 16] {
    commands_of([2, 3, 0x80, 0x80, 0x80, 0])
}

// 13. One block, SET XR60 43h: the check, high byte first.
fn case_13() -> [u8; 16] {
    let mut file = [0u8; 512];
    let _ = script_writer::write(&[1, 3, 0x60, 0x43, 0, 0], &mut file);
    case(&[file[511], file[510]])
}

// P1.1. XR09 = 03h; 3C0h gets 11h and 5Ah, 12h and FFh: AR11, AR12, and what 3C1h and 3C0h read.
fn case_p1_1() -> [u8; 16] {
    let a = after(after(Chip::new(0x02, 0x00), 0x3D6, 0x09), 0x3D7, 0x03);
    let b = after(after(a, 0x3C0, 0x11), 0x3C0, 0x5A);
    let c = after(after(b, 0x3C0, 0x12), 0x3C0, 0xFF);
    case(&[
        c.get(Group::Ar, 0x11),
        c.get(Group::Ar, 0x12),
        seen(c, 0x3C1),
        seen(c, 0x3C0),
    ])
}

// P1.2. MSR bit 0 = 0: the turn after 3C0h, 3C1h and 3DAh are read, and after 3BAh is. With MSR bit 0 = 1: after
// 3BAh, and after 3DAh.
fn case_p1_2() -> [u8; 16] {
    let a = after(Chip::new(0x02, 0x00), 0x3C0, 0x13);
    let b = after_read(after_read(after_read(a, 0x3C0), 0x3C1), 0x3DA);
    let c = after(b, 0x3C0, 0x07);
    let d = after(after_read(after(c, 0x3C0, 0x14), 0x3BA), 0x3C0, 0x11);
    let e = after(after_read(after(d, 0x3C2, 0x01), 0x3BA), 0x3C0, 0x22);
    let f = after(after_read(after(e, 0x3C0, 0x14), 0x3DA), 0x3C0, 0x10);
    case(&[
        seen(a, 0x3DA),
        c.get(Group::Ar, 0x13),
        seen(a, 0x3BA),
        d.get(Group::Ar, 0x14),
        seen(d, 0x3C0),
        e.get(Group::Ar, 0x11),
        f.get(Group::Ar, 0x14),
        seen(f, 0x3C0),
    ])
}

// P1.3. AR00 = 15h, then 3Fh with index bit 5 set; AR10 = 41h with bit 5 set; AR00 = 3Fh with bit 5 clear.
fn case_p1_3() -> [u8; 16] {
    let a = after(after(Chip::new(0x02, 0x00), 0x3C0, 0x00), 0x3C0, 0x15);
    let b = after(after(a, 0x3C0, 0x20), 0x3C0, 0x3F);
    let c = after(after(b, 0x3C0, 0x30), 0x3C0, 0x41);
    let d = after(after(c, 0x3C0, 0x00), 0x3C0, 0x3F);
    case(&[
        seen(b, 0x3C1),
        seen(b, 0x3C0),
        c.get(Group::Ar, 0x10),
        d.get(Group::Ar, 0x00),
    ])
}

// P1.4. 3C0h gets E5h; index 15h gets FFh; writes to 3C1h, 3BAh and 3DAh.
fn case_p1_4() -> [u8; 16] {
    let a = after(Chip::new(0x02, 0x00), 0x3C0, 0xE5);
    let b = after(after(after(a, 0x3C0, 0x00), 0x3C0, 0x15), 0x3C0, 0xFF);
    case(&[
        seen(a, 0x3C0),
        seen(b, 0x3C1),
        refusal(b, 0x3C1, 0x01),
        refusal(b, 0x3BA, 0x02),
        refusal(b, 0x3DA, 0x03),
    ])
}

// P1.5. SET AR11 07h: the first four of its commands.
fn case_p1_5() -> [u8; 16] {
    commands_of([1, 8, 0x11, 0x07, 0, 0])
}

// The case with what the writer answers for steps, with room for a block, from a place on: the number and the value.
fn answered(got: [u8; 16], at: usize, steps: &[u8]) -> [u8; 16]
    requires { at ≤ 14 }
{
    let mut out = got;
    out[at] = written_number(steps);
    out[at + 1] = (written_value(steps) % 256) as u8;
    out
}

// P2.1. SET XR60 43h, SET XR70 43h; SET SR05 00h.
fn case_p2_1() -> [u8; 16] {
    let out = answered(
        [0u8; 16],
        0,
        &[1, 3, 0x60, 0x43, 0, 0, 1, 3, 0x70, 0x43, 0, 0],
    );
    answered(out, 2, &[1, 1, 0x05, 0x00, 0, 0])
}

// P2.2. SET AR15 00h, SET XR70 43h; FIELD XR70, mask 01h, value 03h; SET XR70 43h, SET AR15 00h.
fn case_p2_2() -> [u8; 16] {
    let out = answered(
        [0u8; 16],
        0,
        &[1, 8, 0x15, 0x00, 0, 0, 1, 3, 0x70, 0x43, 0, 0],
    );
    let out = answered(out, 2, &[2, 3, 0x70, 0x03, 0x01, 0]);
    answered(out, 4, &[1, 3, 0x70, 0x43, 0, 0, 1, 8, 0x15, 0x00, 0, 0])
}

// P2.3. FIELD XR60, mask 00h; FIELD XR67, mask 01h, value 01h; SET CR00 FFh; SET AR00 3Fh; a COLOUR.
fn case_p2_3() -> [u8; 16] {
    answered(
        [0u8; 16],
        0,
        &[
            2, 3, 0x60, 0x00, 0x00, 0, 2, 3, 0x67, 0x01, 0x01, 0, 1, 0, 0x00, 0xFF, 0, 0, 1, 8,
            0x00, 0x3F, 0, 0, 3, 0x00, 0x3F, 0x00, 0x15, 0,
        ],
    )
}

// P2.4. FFh written to XR70 and to SR05 through the ports: the numbers, and what is read.
fn case_p2_4() -> [u8; 16] {
    let a = after(Chip::new(0x02, 0x00), 0x3D6, 0x70);
    let b = after(a, 0x3C4, 0x05);
    case(&[
        refusal(a, 0x3D7, 0xFF),
        seen(after(a, 0x3D7, 0xFF), 0x3D7),
        refusal(b, 0x3C5, 0xFF),
        seen(after(b, 0x3C5, 0xFF), 0x3C5),
    ])
}

// P5.1. 3C4h gets 0Ah and 3C5h 0Fh, 3CEh gets 18h and 3CFh A5h: what the index ports read, SR02 and GR08.
fn case_p5_1() -> [u8; 16] {
    let a = after(after(Chip::new(0x02, 0x00), 0x3C4, 0x0A), 0x3C5, 0x0F);
    let b = after(after(a, 0x3CE, 0x18), 0x3CF, 0xA5);
    case(&[
        seen(b, 0x3C4),
        b.get(Group::Sr, 0x02),
        seen(b, 0x3CE),
        b.get(Group::Gr, 0x08),
    ])
}

// P5.2. All seven index ports get FFh: what they read.
fn case_p5_2() -> [u8; 16] {
    let a = after(after(Chip::new(0x02, 0x00), 0x3B4, 0xFF), 0x3D6, 0xFF);
    let b = after(after(a, 0x3D0, 0xFF), 0x3D2, 0xFF);
    let c = after(after(after(b, 0x3C4, 0xFF), 0x3CE, 0xFF), 0x3C0, 0xFF);
    case(&[
        seen(c, 0x3B4),
        seen(c, 0x3D6),
        seen(c, 0x3D0),
        seen(c, 0x3D2),
        seen(c, 0x3C4),
        seen(c, 0x3CE),
        seen(c, 0x3C0),
    ])
}

// P5.3. SET SR0A 0Fh; SET SR05 00h, SET SR0A 0Fh; FIELD GR10, mask 00h; SET SR07 FFh, SET GR08 FFh.
fn case_p5_3() -> [u8; 16] {
    let out = answered([0u8; 16], 0, &[1, 1, 0x0A, 0x0F, 0, 0]);
    let out = answered(out, 2, &[1, 1, 0x05, 0x00, 0, 0, 1, 1, 0x0A, 0x0F, 0, 0]);
    let out = answered(out, 4, &[2, 2, 0x10, 0x00, 0x00, 0]);
    answered(out, 6, &[1, 1, 0x07, 0xFF, 0, 0, 1, 2, 0x08, 0xFF, 0, 0])
}

// The case with what a write hands back, from a place on: the register's byte before it and after it, and 1 if it
// changes a register or a colour.
fn told(got: [u8; 16], at: usize, c: Chip, port: u16, v: u8) -> [u8; 16]
    requires { at ≤ 13 }
{
    let mut out = got;
    out[at] = byte_before(c, port, v);
    out[at + 1] = byte_after(c, port, v);
    if alters(c, port, v) {
        out[at + 2] = 1;
    }
    out
}

// P6.1. 3D6h gets 60h; 3D7h gets 43h, 43h, FFh and 02h.
fn case_p6_1() -> [u8; 16] {
    let c = Chip::new(0x02, 0x00);
    let d = after(c, 0x3D6, 0x60);
    let e = after(d, 0x3D7, 0x43);
    let out = told([0u8; 16], 0, c, 0x3D6, 0x60);
    let out = told(out, 3, d, 0x3D7, 0x43);
    let out = told(out, 6, e, 0x3D7, 0x43);
    let out = told(out, 9, e, 0x3D7, 0xFF);
    told(out, 12, e, 0x3D7, 0x02)
}

// P6.2. FFh to XR07 and SR05, which are unlisted, and to XR04, which has no writable bit.
fn case_p6_2() -> [u8; 16] {
    let c = Chip::new(0x02, 0x00);
    let out = told([0u8; 16], 0, after(c, 0x3D6, 0x07), 0x3D7, 0xFF);
    let out = told(out, 3, after(c, 0x3C4, 0x05), 0x3C5, 0xFF);
    told(out, 6, after(c, 0x3D6, 0x04), 0x3D7, 0xFF)
}

// P6.3. CR00 = 5Fh, CR11 = 80h: FFh to CR00, FFh and then 0Fh to CR07, FFh to CR0C.
fn case_p6_3() -> [u8; 16] {
    let a = after(after(Chip::new(0x02, 0x00), 0x3B4, 0x00), 0x3B5, 0x5F);
    let b = after(a, 0x3B4, 0x11);
    let c = after(b, 0x3B5, 0x80);
    let d = after(c, 0x3B4, 0x07);
    let out = told([0u8; 16], 0, b, 0x3B5, 0x80);
    let out = told(out, 3, after(c, 0x3B4, 0x00), 0x3B5, 0xFF);
    let out = told(out, 6, d, 0x3B5, 0xFF);
    let out = told(out, 9, after(d, 0x3B5, 0xFF), 0x3B5, 0x0F);
    told(out, 12, after(c, 0x3B4, 0x0C), 0x3B5, 0xFF)
}

// P6.4. MSR bit 0 = 0, the CR index 0Ch: 3D4h gets 0Dh, 3D5h and 3B5h get 55h. With MSR bit 0 = 1: 3B5h and 3D5h
// get AAh.
fn case_p6_4() -> [u8; 16] {
    let c = after(Chip::new(0x02, 0x00), 0x3B4, 0x0C);
    let d = after(after(c, 0x3B5, 0x55), 0x3C2, 0x01);
    let out = told([0u8; 16], 0, c, 0x3D4, 0x0D);
    let out = told(out, 3, after(c, 0x3D4, 0x0D), 0x3D5, 0x55);
    let out = told(out, 6, c, 0x3B5, 0x55);
    let out = told(out, 9, d, 0x3B5, 0xAA);
    told(out, 12, d, 0x3D5, 0xAA)
}

// P6.5. 3C0h gets 00h and 15h, 20h and 3Fh, 30h and 41h: all but the index 30h.
fn case_p6_5() -> [u8; 16] {
    let a = Chip::new(0x02, 0x00);
    let b = after(a, 0x3C0, 0x00);
    let c = after(b, 0x3C0, 0x15);
    let d = after(c, 0x3C0, 0x20);
    let e = after(after(d, 0x3C0, 0x3F), 0x3C0, 0x30);
    let out = told([0u8; 16], 0, a, 0x3C0, 0x00);
    let out = told(out, 3, b, 0x3C0, 0x15);
    let out = told(out, 6, c, 0x3C0, 0x20);
    let out = told(out, 9, d, 0x3C0, 0x3F);
    told(out, 12, e, 0x3C0, 0x41)
}

// P6.6. 3C2h gets FFh twice; 3C6h gets 0Fh twice, and FFh.
fn case_p6_6() -> [u8; 16] {
    let a = Chip::new(0x02, 0x00);
    let b = after(a, 0x3C2, 0xFF);
    let c = after(b, 0x3C6, 0x0F);
    let out = told([0u8; 16], 0, a, 0x3C2, 0xFF);
    let out = told(out, 3, b, 0x3C2, 0xFF);
    let out = told(out, 6, b, 0x3C6, 0x0F);
    let out = told(out, 9, c, 0x3C6, 0x0F);
    told(out, 12, c, 0x3C6, 0xFF)
}

// P6.7. 3C8h gets 5, 3C9h 63, 0, 21; 3C7h gets 5, 3C9h 127, 64, 85: both indexes, the green of the first, and each blue.
fn case_p6_7() -> [u8; 16] {
    let a = Chip::new(0x02, 0x00);
    let b = after(after(a, 0x3C8, 5), 0x3C9, 63);
    let c = after(b, 0x3C9, 0);
    let d = after(c, 0x3C9, 21);
    let e = after(after(after(d, 0x3C7, 5), 0x3C9, 127), 0x3C9, 64);
    let out = told([0u8; 16], 0, a, 0x3C8, 5);
    let out = told(out, 3, b, 0x3C9, 0);
    let out = told(out, 6, c, 0x3C9, 21);
    let out = told(out, 9, d, 0x3C7, 5);
    told(out, 12, e, 0x3C9, 85)
}

// P6.8. Writes to 3D8h and 3C1h, and with first pin byte 00h to 3D7h: each number behind the bytes of all.
fn case_p6_8() -> [u8; 16] {
    let c = Chip::new(0x02, 0x00);
    let d = Chip::new(0x00, 0x00);
    let out = told([0u8; 16], 0, c, 0x3D8, 0x43);
    let out = told(out, 3, c, 0x3C1, 0x01);
    let mut out = told(out, 6, d, 0x3D7, 0x43);
    out[9] = refusal(c, 0x3D8, 0x43);
    out[10] = refusal(c, 0x3C1, 0x01);
    out[11] = refusal(d, 0x3D7, 0x43);
    out
}

// Document 01's set-ups.
fn set_ups<W: Write>(out: &mut W) {
    report(out, 1, case_1(), &[0x43, 0x02, 0xEB]);
    report(out, 2, case_2(), &[0x03]);
    report(out, 3, case_3(), &[2, 0xFF]);
    report(out, 4, case_4(), &[0x10]);
    report(out, 5, case_5(), &[0xFF, 0x0A]);
    report(out, 6, case_6(), &[0x43, 0x00]);
    report(out, 7, case_7(), &[63, 0, 21, 252, 0, 84, 63, 2, 3]);
    report(out, 8, case_8(), &[0xB8]);
    report(out, 9, one_line(0xCC, false, 4, 0, 1), &[0, 1, 1, 1, 1, 1]);
    report(out, 10, one_line(0xCC, true, 4, 3, 4), &[0, 1, 1, 2, 3, 4]);
    report(out, 11, case_11(), &[0, 4]);
    report(
        out,
        12,
        case_12(),
        &[
            0x01, 0xD6, 0x03, 0x80, 0x02, 0xD7, 0x03, 0x00, 0x03, 0x7F, 0x80, 0x00, 0x04, 0xD7,
            0x03, 0x00,
        ],
    );
    report(out, 13, case_13(), &[0xB8, 0x9F]);
}

// The cases of document 02's P1.
fn request_1<W: Write>(out: &mut W) {
    report_request(out, 1, 1, case_p1_1(), &[0x5A, 0x3F, 0x3F, 0x12]);
    report_request(
        out,
        1,
        2,
        case_p1_2(),
        &[0xFF, 0x07, 0x00, 0x00, 0x11, 0x22, 0x00, 0x10],
    );
    report_request(out, 1, 3, case_p1_3(), &[0x15, 0x20, 0x41, 0x3F]);
    report_request(out, 1, 4, case_p1_4(), &[0x25, 0x00, 1, 1, 1]);
    report_request(
        out,
        1,
        5,
        case_p1_5(),
        &[
            0x02, 0xBA, 0x03, 0x00, 0x02, 0xDA, 0x03, 0x00, 0x02, 0xC0, 0x03, 0x00, 0x03, 0x20,
            0x11, 0x00,
        ],
    );
}

// The cases of document 02's P2.
fn request_2<W: Write>(out: &mut W) {
    report_request(out, 2, 1, case_p2_1(), &[11, 1, 11]);
    report_request(out, 2, 2, case_p2_2(), &[7, 0, 7, 0, 11]);
    report_request(out, 2, 3, case_p2_3(), &[0, 1]);
    report_request(out, 2, 4, case_p2_4(), &[0, 0x03, 0, 0x00]);
}

// The cases of document 02's P5.
fn request_5<W: Write>(out: &mut W) {
    report_request(out, 5, 1, case_p5_1(), &[0x02, 0x0F, 0x08, 0xA5]);
    report_request(
        out,
        5,
        2,
        case_p5_2(),
        &[0xFF, 0xFF, 0xFF, 0xFF, 0x07, 0x0F, 0x3F],
    );
    report_request(out, 5, 3, case_p5_3(), &[7, 0, 11, 0, 7, 0, 0, 1]);
}

// The cases of document 02's P6.
fn request_6<W: Write>(out: &mut W) {
    report_request(
        out,
        6,
        1,
        case_p6_1(),
        &[
            0xFF, 0xFF, 0, 0x00, 0x43, 1, 0x43, 0x43, 0, 0x43, 0x43, 0, 0x43, 0x02, 1,
        ],
    );
    report_request(
        out,
        6,
        2,
        case_p6_2(),
        &[0x00, 0x00, 0, 0x00, 0x00, 0, 0x62, 0x62],
    );
    report_request(
        out,
        6,
        3,
        case_p6_3(),
        &[
            0x00, 0x80, 1, 0x5F, 0x5F, 0, 0x00, 0x10, 1, 0x10, 0x00, 1, 0x00, 0xFF, 1,
        ],
    );
    report_request(
        out,
        6,
        4,
        case_p6_4(),
        &[
            0xFF, 0xFF, 0, 0xFF, 0xFF, 0, 0x00, 0x55, 1, 0xFF, 0xFF, 0, 0x55, 0xAA, 1,
        ],
    );
    report_request(
        out,
        6,
        5,
        case_p6_5(),
        &[
            0xFF, 0xFF, 0, 0x00, 0x15, 1, 0xFF, 0xFF, 0, 0x15, 0x15, 0, 0x00, 0x41, 1,
        ],
    );
    report_request(
        out,
        6,
        6,
        case_p6_6(),
        &[
            0x00, 0xEF, 1, 0xEF, 0xEF, 0, 0x00, 0x0F, 1, 0x0F, 0x0F, 0, 0x0F, 0xFF, 1,
        ],
    );
    report_request(
        out,
        6,
        7,
        case_p6_7(),
        &[
            0xFF, 0xFF, 0, 0xFF, 0xFF, 0, 0xFF, 0xFF, 1, 0xFF, 0xFF, 0, 0xFF, 0xFF,
        ],
    );
    report_request(
        out,
        6,
        8,
        case_p6_8(),
        &[0xFF, 0xFF, 0, 0xFF, 0xFF, 0, 0xFF, 0xFF, 0, 1, 1, 2],
    );
}

fn main(rt: HostRuntime) {
    let out = &mut rt.stdout();
    set_ups(out);
    request_1(out);
    request_2(out);
    request_5(out);
    request_6(out);
}
