//! Laws of worlds and of sites, each the contract of a function that does nothing.

ghost use Rattle.std.specs.Prelude.{◌≡◌, ℕ, List, Some, Contains, slice_get};
ghost use Rattle.gf_ops.specs.declared.op.Op.{Op};
ghost use Rattle.gf_ops.specs.declared.op.OpId.{OpId};
ghost use Rattle.gf_ops.specs.declared.faults.OpFault.{OpFault};
ghost use Rattle.gf_ops.specs.ValidHistory.{IsValid};
ghost use Rattle.gf_causal.specs.Ready.{NoneIsReady};
ghost use Rattle.gf_causal.specs.DeliveredPart.{HaveSame};
ghost use Rattle.gf_site.specs.SiteState.{SiteState};
ghost use Rattle.gf_site.specs.Events.{ForgetsReady};
ghost use Rattle.gf_replicas.specs.declared.event.Event.{Event};
ghost use Rattle.gf_replicas.specs.World.{WorldState, site_at, IsWorld};
ghost use Rattle.gf_replicas.specs.Sound.{IsSound};
ghost use Rattle.gf_replicas.specs.Settled.{HasHeardAll, IsOfferedLast};
ghost use Rattle.gf_replicas.specs.Visits.{IsOffered};
ghost use Rattle.gf_replicas.specs.Courses.{AreCourses, HaveEvents};

/// The messages of a world are a valid history, and the list of each site is a course. Each prefix
/// of a course is a valid history, and an own operation knows all that stands before it. The list
/// has all that the site authored, and only messages.
pub fn each_site_of_a_world_has_a_course()
    ensures { (n : ℕ) (events : List Event) (offers : List (ℕ × Op)) (w : WorldState)
        → IsWorld n events offers w → IsSound w }
{}

/// A site that was offered all messages of the others, and holds none that is ready, has all
/// messages. All such sites have the same operations.
pub fn settled_sites_have_all_messages()
    ensures { (n : ℕ) (events : List Event) (offers : List (ℕ × Op)) (w : WorldState)
        → IsWorld n events offers w → (s : ℕ) (x : SiteState) → site_at w.sites s ≡ Some x
        → HasHeardAll w offers s x → HaveSame x.ops w.messages }
{}

/// What is offered to a site once the last change was made is among the offers to it.
pub fn what_is_offered_behind_the_last_change_is_an_offer()
    ensures { (n : ℕ) (events : List Event) (offers : List (ℕ × Op)) (w : WorldState)
        → IsWorld n events offers w → (s m : ℕ) (a : Op) → IsOfferedLast events s m
        → slice_get w.messages m ≡ Some a → Contains offers (s, a) }
{}

/// A new site is offered the operations of a valid history in any order, each at least once. It
/// steps at any moments, and at last until none is ready. Then the site has this history, and
/// dropped nothing.
pub fn a_site_that_is_offered_a_history_has_it()
    ensures same { (n : ℕ) (h offers : List Op) (x : SiteState) → IsValid h → IsOffered n h offers x
        → ((a : Op) → Contains h a → Contains offers a) → NoneIsReady x.ops x.held
        → HaveSame x.ops h }
    ensures none_dropped { (n : ℕ) (h offers : List Op) (x : SiteState) → IsValid h
        → IsOffered n h offers x → (i : OpId) (f : OpFault) (y : SiteState)
        → ¬ (ForgetsReady x i f y) }
{}

/// Let lists have the same operations, each of a site from 1 to n, and be courses of these sites.
/// Then some world of n sites has these lists. Each site makes its own operations where they stand
/// in its list. Each other operation is offered and taken where it stands there.
pub fn courses_of_the_same_operations_have_events()
    ensures { (lists : List (List Op)) → AreCourses lists → HaveEvents lists }
{}
