//! Firmwares of texts: their canonical texts and their types.

use base_names::{Name, NameRefusal};
use ir_model::firmware::Firmware;
use ir_model::object::ObjId;
use ir_model::text_limits::TEXT_LIMIT;
use ir_printer::print::print;
use ir_reader::read;
use ir_types::equal::same_type;
use std::alloc::Global;
use std::process::Abort;
use std::test::Fail;

fn firmware(rt: &impl Abort, alloc: Global, text: &[u8]) -> Result<Firmware, Fail> {
    assert!(rt; text.len() <= TEXT_LIMIT as usize);
    Ok(read(alloc, text)?)
}

/// Each construct, in its canonical text.
const EACH: &[u8] = b"struct S { a : u8 , b : [ 3 ] u16 }
periph TIM 1073741824 1024
const global c : u32 = { 7 }
global t : [ 2 ] fn ( u8 , * S ) -> u32 = { fn f , addr c }
global z : fn ( )
file empty.c {
}
file m.c {
func f ( x : u32 , y : * S ) -> u32 {
local l : S
reg r : u32
one :
r = add x , y
r = sub x , y
r = mul x , y
r = udiv x , y
r = sdiv x , y
r = urem x , y
r = srem x , y
r = and x , y
r = or x , y
r = xor x , y
r = bic x , y
r = shl x , y
r = shr x , y
r = sar x , y
r = eq x , y
r = ne x , y
r = ult x , y
r = ule x , y
r = slt x , y
r = sle x , y
jump two
two :
r = 4294967295
r = x
r = addr c
r = faddr f
r = elem y , x
r = field y , a
r = load y
store y , r
branch r one four
four :
r = call f ( x , y )
call g ( )
r = icall x ( r )
icall x ( )
ret r
}
func g ( ) {
b0 :
ret
}
}
";

/// Texts, and the canonical ones of their firmwares.
const PRINTED: &[(&[u8], &[u8])] = &[
    (b"", b""),
    (
        b"file m { func main() { b0: ret } }",
        b"file m {\nfunc main ( ) {\nb0 :\nret\n}\n}\n",
    ),
    (
        b"# blinks\nstruct pair{lo:u16,hi:[0x4]*fn(u32)->u8}periph led 0x40000000 -16\nconst global g:u32={1,fn main,addr led}\nfile a{func main(){local l:u8 reg r:u32 top: r=-1 store r,r ret next: jump top}}",
        b"struct pair { lo : u16 , hi : [ 4 ] * fn ( u32 ) -> u8 }\nperiph led 1073741824 4294967280\nconst global g : u32 = { 1 , fn main , addr led }\nfile a {\nfunc main ( ) {\nlocal l : u8\nreg r : u32\ntop :\nr = 4294967295\nstore r , r\nret\nnext :\njump top\n}\n}\n",
    ),
    (EACH, EACH),
];

fn check_text(rt: &impl Abort, alloc: Global, text: &[u8], canonical: &[u8]) -> Result<(), Fail> {
    let firmware = firmware(rt, alloc, text)?;
    let printed = print(alloc, &firmware)?;
    assert_eq!(rt; printed.as_slice(), canonical, "{text:?}");
    Ok(())
}

#[test]
fn texts_are_printed(rt: HostRuntime) -> Result<(), Fail> {
    for (text, canonical) in PRINTED {
        check_text(&rt, rt.alloc(), text, canonical)?;
    }
    Ok(())
}

/// Texts with two globals, and whether their types are equal.
const TYPES: &[(&[u8], bool)] = &[
    (b"global a: u16 global b: u16", true),
    (b"global a: u16 global b: u32", false),
    (b"global a: *u8 global b: u8", false),
    (b"global a: [4]u8 global b: [4]u8", true),
    (b"global a: [4]u8 global b: [5]u8", false),
    (b"global a: *S global b: *S", true),
    (b"global a: *S global b: *T", false),
    (
        b"global a: [4]fn(*S, u8) -> u16 global b: [4]fn(*S, u8) -> u16",
        true,
    ),
    (
        b"global a: [4]fn(*S, u8) -> u16 global b: [4]fn(*S) -> u16",
        false,
    ),
    (b"global a: fn(u8) -> u16 global b: fn(u8)", false),
    (b"global a: fn(u8) -> u16 global b: fn(u16) -> u16", false),
];

fn check_types(rt: &impl Abort, alloc: Global, text: &[u8], same: bool) -> Result<(), Fail> {
    let firmware = firmware(rt, alloc, text)?;
    let globals = firmware.globals.as_slice();
    let a = globals.get(0).ok_or("no first global")?;
    let b = globals.get(1).ok_or("no second global")?;
    assert_eq!(rt; same_type(&a.ty, &b.ty), same, "{text:?}");
    assert!(rt; same_type(&a.ty, &a.ty), "{text:?}");
    Ok(())
}

#[test]
fn types_are_equal_part_by_part(rt: HostRuntime) -> Result<(), Fail> {
    for (text, same) in TYPES {
        check_types(&rt, rt.alloc(), text, *same)?;
    }
    Ok(())
}

/// Bytes, and whether they are a name.
const NAMES: &[(&[u8], bool)] = &[
    (b"TIM2.SR", true),
    (b"_", true),
    (
        b"aaaaaaaaaaaaaaaaaaaaaaaaaaaaaaaaaaaaaaaaaaaaaaaaaaaaaaaaaaaaaaaa",
        true,
    ),
    (
        b"aaaaaaaaaaaaaaaaaaaaaaaaaaaaaaaaaaaaaaaaaaaaaaaaaaaaaaaaaaaaaaaaa",
        false,
    ),
    (b"icall", false),
    (b"", false),
    (b"2", false),
    (b"a b", false),
];

fn check_name(rt: &impl Abort, alloc: Global, bytes: &[u8], is_name: bool) -> Result<(), Fail> {
    match Name::new(alloc, bytes) {
        Ok(name) => {
            assert!(rt; is_name, "{bytes:?}");
            assert_eq!(rt; name.as_slice(), bytes);
            assert!(rt; name.clone()?.same(&name));
            assert!(rt; !name.same(&Name::new(alloc, b"other")?));
        }
        Err(refusal) => {
            assert!(rt; !is_name, "{bytes:?}");
            assert_eq!(rt; refusal, NameRefusal::NotAName);
        }
    }
    Ok(())
}

#[test]
fn names_are_made_of_words(rt: HostRuntime) -> Result<(), Fail> {
    for (bytes, is_name) in NAMES {
        check_name(&rt, rt.alloc(), bytes, *is_name)?;
    }
    Ok(())
}

/// Objects in their order.
const RISING: [ObjId; 6] = [
    ObjId::Global(7),
    ObjId::Periph(0),
    ObjId::Periph(1),
    ObjId::Local { func: 0, local: 9 },
    ObjId::Local { func: 1, local: 0 },
    ObjId::Func(0),
];

#[test]
fn objects_are_ordered(rt: HostRuntime) {
    assert!(rt; RISING.is_sorted());
    assert!(rt; RISING[3] < RISING[4]);
}
