//! Laws of deliveries, each the contract of a function that does nothing.

ghost use Rattle.std.specs.Prelude.{List, Contains};
ghost use Rattle.gf_ops.specs.declared.op.Op.{Op};
ghost use Rattle.gf_ops.specs.ValidHistory.{IsValid};
ghost use Rattle.gf_ops.specs.Accepted.{IsAccepted};
ghost use Rattle.gf_causal.specs.DeliveredPart.{AreOneById, AreReady, IsLastDelivery};
ghost use Rattle.gf_causal.specs.DeliveredPart.{HasLastDelivery, IsDeliveredPart, HaveSame};
ghost use Rattle.gf_causal.specs.Ready.{IsReady};

/// Where equal ids are equal operations, the delivered part does not depend on the order of the
/// offers. Ready ones may be chosen in any order, each added behind those before it. As soon as
/// none of the rest is ready, exactly the delivered part was added.
pub fn a_last_delivery_has_the_delivered_part()
    ensures part { (offered added : List Op) → AreOneById offered → IsLastDelivery offered added
        → IsDeliveredPart offered added }
    ensures same { (offered others c d : List Op) → AreOneById offered → HaveSame offered others
        → IsLastDelivery offered c → IsLastDelivery others d → HaveSame c d }
{}

/// Any offered operations have a delivery behind which none of them is ready.
pub fn each_list_has_a_last_delivery()
    ensures { (offered : List Op) → HasLastDelivery offered }
{}

/// Where exactly the operations of a valid history are offered, all are delivered.
pub fn the_delivered_part_of_a_valid_history_is_all_of_it()
    ensures { (offered h : List Op) → IsValid h → HaveSame offered h → IsDeliveredPart offered h }
{}

/// Behind a part of a valid history, delivered in turn, each ready operation of that history is
/// accepted. A delivery of its operations never drops one.
pub fn what_is_ready_in_a_valid_history_is_accepted()
    ensures { (h part : List Op) → IsValid h → ((a : Op) → Contains part a → Contains h a)
        → AreReady part → (a : Op) → Contains h a → IsReady part a → IsAccepted part a }
{}
