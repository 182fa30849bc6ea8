//! `wasm_ops` and `wasm_code`: texts, sizes, and that each call can succeed.
//!
//! The table `integer` of `wasm_tables` has every integer operator at boundary operands, and `body` each operator that a body may have.
use std::test::Fail;
use wasm_code::CodeFault;
use wasm_ops::{
    Access, FuncType, IntOp, Items, Name, Op, Refusal, Trap, ValType, apply_binary, apply_unary,
};

#[test]
fn traps_have_their_texts(rt: HostRuntime) {
    let texts = [
        (Trap::Unreachable, "unreachable"),
        (Trap::DivideByZero, "integer divide by zero"),
        (Trap::IntegerOverflow, "integer overflow"),
        (Trap::OutOfBounds, "out of bounds memory access"),
        (Trap::UndefinedElement, "undefined element"),
        (Trap::UninitializedElement, "uninitialized element"),
        (Trap::TypeMismatch, "indirect call type mismatch"),
        (Trap::StackExhausted, "call stack exhausted"),
    ];
    for (trap, text) in texts {
        assert_eq!(rt; trap.text(), text);
    }
}

#[test]
fn refusals_show_themselves(rt: HostRuntime) -> Result<(), Fail> {
    let alloc = rt.alloc();
    let float = Refusal::FloatOperator.at(35);
    assert_eq!(rt; (float.number, float.place), (5, 35));
    let shown = format!(in alloc; "{float}")?;
    assert_eq!(rt; shown.as_str(), "refusal 5 at byte 35: a float operator");
    let wanting = format!(in alloc; "{}", CodeFault::NoMemory)?;
    assert_eq!(rt; wanting.as_str(), "out of memory");
    Ok(())
}

// A body is a list of operators, and is walked operator by operator: each has to be small.
#[test]
fn operators_are_small(rt: HostRuntime) {
    assert_eq!(rt; size_of::<Op>(), 16);
    assert_eq!(rt; size_of::<Access>(), 3);
}

#[test]
fn operators_compute(rt: HostRuntime) {
    let eqz = IntOp::from_byte(0x45).expect(&rt, "i32.eqz");
    assert!(rt; eqz.operation().takes_one_operand());
    assert!(rt; matches!(eqz.operation().operand_type(), ValType::I32));
    assert_eq!(rt; apply_unary(eqz, 0), 1);
    let extend8_s = IntOp::from_byte(0xC0).expect(&rt, "i32.extend8_s");
    assert_eq!(rt; apply_unary(extend8_s, 128), 4_294_967_168);
    let div_s = IntOp::from_byte(0x6D).expect(&rt, "i32.div_s");
    assert!(rt; !div_s.operation().takes_one_operand());
    assert!(rt; matches!(div_s.operation().operand_type(), ValType::I32));
    assert!(rt; matches!(apply_binary(div_s, 0xFFFF_FFF9, 2), Ok(0xFFFF_FFFD)));
    assert!(rt; IntOp::from_byte(0xA8).is_none());
}

#[test]
fn parts_give_back_what_they_hold(rt: HostRuntime) -> Result<(), Fail> {
    let alloc = rt.alloc();
    let function = FuncType {
        params: Items::new(vec![in alloc; ValType::I32, ValType::I64]?),
        result: Some(ValType::I32),
    };
    assert!(rt; matches!(function.params.as_slice(), [ValType::I32, ValType::I64]));
    let name = Name::new(format!(in alloc; "fd_read")?);
    assert_eq!(rt; name.as_str(), "fd_read");
    Ok(())
}
