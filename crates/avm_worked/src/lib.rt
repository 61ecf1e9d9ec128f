//! Worked examples of the machine's definitions, which the checker computes.
#![tactic(auto)]

ghost use Rattle.std.specs.Prelude.{◌≡◌, [], ◌∷◌, Some, None, true};
ghost use Rattle.avm_model.specs.Decode.{decoded};
ghost use Rattle.avm_model.specs.Device.{fresh};
ghost use Rattle.avm_model.specs.Machine.{Step, Out, Halt, Snap, initial, asks};
ghost use Rattle.avm_model.specs.Input.{Refusal, Clock};
ghost use Rattle.avm_model.specs.Values.{mul_value, imm_value, load_value};
ghost use Rattle.avm_worked.specs.Guests.{bell_guest, later, typed};

use avm_model::{Bell, ImmOp, Inst, LoadOp, MulOp, NotTaken};

/// Quotients, remainders, high products, a shift and a load.
pub fn worked_values()
    ensures quotient_by_zero { mul_value MulOp.Div 7 0 ≡ 0xffffffff }
    ensures remainder_by_zero { mul_value MulOp.Rem 7 0 ≡ 7 }
    ensures least_by_minus_one { mul_value MulOp.Div 0x80000000 0xffffffff ≡ 0x80000000 }
    ensures rest_of_least { mul_value MulOp.Rem 0x80000000 0xffffffff ≡ 0 }
    ensures mixed_product { mul_value MulOp.Mulhsu 0xffffffff 0xffffffff ≡ 0xffffffff }
    ensures unsigned_product { mul_value MulOp.Mulhu 0xffffffff 0xffffffff ≡ 0xfffffffe }
    ensures arithmetic_shift { imm_value ImmOp.Srai 0x80000000 4 ≡ 0xf8000000 }
    ensures signed_byte { load_value LoadOp.Lb 0x80 ≡ 0xffffff80 }
{}

/// Words.
pub fn worked_words()
    ensures div { decoded 0x0220c1b3 ≡ Some (Inst.Mul MulOp.Div 3 1 2) }
    ensures jump { decoded 0xfe9ff06f ≡ Some (Inst.Jal 0 0xffffffe8) }
    ensures halfword { decoded 0x00109103 ≡ Some (Inst.Load LoadOp.Lh 2 1 1) }
    ensures zero { decoded 0 ≡ None }
    ensures csr { decoded 0x30200073 ≡ None }
{}

/// Guests of a few words that halt, in RAM of as many bytes: the outputs of their last step.
#[tactic(auto, unfolding(avm_model::specs::Machine::exec_flat))]
pub fn worked_halts()
    // ECALL gives x10, and an illegal word itself.
    ensures call { (Step (initial (fresh 0 []) (0x73 ∷ 0 ∷ 0 ∷ 0 ∷ []) 1024 0x80000000)).outs ≡ Halt 1 0 ∷ [] }
    ensures illegal { (Step (initial (fresh 0 []) (0 ∷ 0 ∷ 0 ∷ 0 ∷ []) 1024 0x80000000)).outs ≡ Halt 3 0 ∷ [] }
    // BEQ to an address that is no multiple of 4.
    ensures branch { (Step (initial (fresh 0 []) (0x63 ∷ 1 ∷ 0 ∷ 0 ∷ []) 1024 0x80000000)).outs ≡ Halt 4 0x80000002 ∷ [] }
    // A fetch outside RAM, which is also a step, and with K 1 a snapshot.
    ensures fetch { (Step (initial (fresh 0 []) [] 1 0x80000000)).outs ≡ Halt 9 0x80000000 ∷ Snap ∷ [] }
{}

/// Guests of a few words that print a line, jump, and ask for a clock.
#[tactic(auto, unfolding(avm_model::specs::Machine::exec_flat))]
pub fn worked_runs()
    // LUI, ADDI, SW, ADDI, SW: a byte and a line end are stored to CON_OUT; the fifth step puts out the line.
    ensures line { (Step ((Step (Step (Step (Step (initial (fresh 0 []) (183 ∷ 2 ∷ 0 ∷ 16 ∷ 19 ∷ 3 ∷ 128 ∷ 4 ∷ 35 ∷ 160 ∷ 98 ∷ 0 ∷ 19 ∷ 3 ∷ 160 ∷ 0 ∷ 35 ∷ 160 ∷ 98 ∷ 0 ∷ 115 ∷ 0 ∷ 0 ∷ 0 ∷ []) 1024 0x80000000)).state).state).state).state)).outs ≡ Out (0x48 ∷ 10 ∷ []) ∷ [] }
    // LUI, ADDI 11, JALR: bit 0 of the target is cleared, and what is left is no multiple of 4.
    ensures jump { (Step ((Step (Step (initial (fresh 0 []) (183 ∷ 0 ∷ 0 ∷ 128 ∷ 147 ∷ 128 ∷ 176 ∷ 0 ∷ 103 ∷ 128 ∷ 0 ∷ 0 ∷ []) 1024 0x80000000)).state).state)).outs ≡ Halt 4 0x8000000a ∷ [] }
    // LUI, LW from CLK_LO: the machine asks, and takes a clock then and not before.
    ensures asks { asks ((Step (initial (fresh 0 []) (183 ∷ 2 ∷ 0 ∷ 16 ∷ 131 ∷ 168 ∷ 130 ∷ 0 ∷ 115 ∷ 0 ∷ 0 ∷ 0 ∷ []) 1024 0x80000000)).state) ≡ true }
    ensures asked { Refusal ((Step (initial (fresh 0 []) (183 ∷ 2 ∷ 0 ∷ 16 ∷ 131 ∷ 168 ∷ 130 ∷ 0 ∷ 115 ∷ 0 ∷ 0 ∷ 0 ∷ []) 1024 0x80000000)).state) (Clock 7) ≡ None }
    ensures early { Refusal (initial (fresh 0 []) (183 ∷ 2 ∷ 0 ∷ 16 ∷ 131 ∷ 168 ∷ 130 ∷ 0 ∷ 115 ∷ 0 ∷ 0 ∷ 0 ∷ []) 1024 0x80000000) (Clock 7) ≡ Some NotTaken.NotAsked }
{}

/// A guest of version 2 whose handler prints what was typed in. In version 1 its store to BELL_VEC halts it.
#[tactic(auto, unfolding(avm_model::specs::Machine::exec_flat))]
pub fn worked_bell()
    // Ten steps reach the jump to itself. What is typed in then enters the handler, and its second step puts out the line.
    ensures entered { (typed (later 10 (bell_guest 2))).hart.pc ≡ 0x80000014 }
    ensures saved { (typed (later 10 (bell_guest 2))).devices.bell ≡ Some (record { vector = 0x80000014; saved = 0x80000010; state = 1 }) }
    ensures line { (Step (later 1 (typed (later 10 (bell_guest 2))))).outs ≡ Out (10 ∷ []) ∷ [] }
    ensures back { (later 3 (typed (later 10 (bell_guest 2)))).hart.pc ≡ 0x80000010 }
    ensures left { (later 3 (typed (later 10 (bell_guest 2)))).devices.bell ≡ Some (record { vector = 0x80000014; saved = 0x80000010; state = 0 }) }
    // What is typed in inside the handler rings, and the return enters the handler again: the second line is the fifth step's.
    ensures rung { (typed (later 1 (typed (later 10 (bell_guest 2))))).devices.bell ≡ Some (record { vector = 0x80000014; saved = 0x80000010; state = 2 }) }
    ensures again { (later 2 (typed (later 1 (typed (later 10 (bell_guest 2)))))).hart.pc ≡ 0x80000014 }
    ensures second { (Step (later 3 (typed (later 1 (typed (later 10 (bell_guest 2))))))).outs ≡ Out (10 ∷ []) ∷ [] }
    // Version 1.
    ensures unmapped { (Step (later 3 (bell_guest 1))).outs ≡ Halt 8 0x10000030 ∷ [] }
{}
