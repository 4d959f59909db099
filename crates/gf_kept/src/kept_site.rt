//! A site with what it shows.

ghost use Rattle.std.specs.Prelude.{◌≡◌, ◌∷◌, [], ◌++◌, ◌≤◌, length, IfErr, IfNone, IfOk, IfSome};
ghost use Rattle.std.specs.Prelude.{List, OnErr, OnOk};
ghost use Rattle.gf_ops.specs.declared.op.Op.{Op};
ghost use Rattle.gf_ops.specs.Accepted.{AreAccepted, IsAccepted};
ghost use Rattle.gf_ops.specs.Limits.{IsInRange};
ghost use Rattle.gf_ops.specs.OperationOrder.{IsSite};
ghost use Rattle.gf_ops.specs.ValidHistory.{IsValid};
ghost use Rattle.gf_site.specs.Events.{Authors, Refuses};
ghost use Rattle.gf_versions.specs.declared.ranking.TheConstants.{MOST_VERSIONS};
ghost use Rattle.gf_versions.specs.Ranking.{AreRanked};
ghost use Rattle.gf_visible.specs.ShownVersions.{HasMoreVisible};
ghost use Rattle.gf_kept.specs.Keeping.{Keeps};

use crate::KeptVersions;
use gf_base::OutOfMemory;
use gf_listing::Versions;
use gf_ops::{Change, History, Op};
use gf_shape::AnyShape;
use gf_site::{AuthorFault, Site};
use gf_table::IndexedHistory;
use gf_versions::{MOST_VERSIONS, Ranked};
use std::alloc::Global;
use std::marker::Model;

/// A site, with the visible versions of its objects as they were found before. It is seen as the
/// site: what is kept shows in no clause, but in how long a question takes.
#[derive(Drop)]
pub struct KeptSite {
    site: Site,
    kept: KeptVersions,
}

impl Model for KeptSite {
    ghost use Rattle.gf_site.specs.SiteState.{SiteState};
    ghost use Rattle.gf_kept.specs.Keeping.{Keeps};

    ghost Value = { SiteState };

    ghost view = { λ s. s.site };

    ghost invariant = { λ s. Keeps s.site.ops s.kept };
}

impl KeptSite {
    /// A site, with what is kept of its history.
    pub fn new(site: Site, kept: KeptVersions) -> KeptSite
        requires { Keeps site.ops kept }
        ensures { result ≡ site }
    {
        KeptSite { site, kept }
    }

    /// A site of which nothing is kept.
    pub fn of(alloc: Global, site: Site) -> KeptSite
        ensures { result ≡ site }
    {
        KeptSite::new(site, KeptVersions::new(alloc))
    }

    /// The site, and what is kept of its history.
    pub fn into_parts(self) -> (Site, KeptVersions)
        ensures site { result.0 ≡ self }
        ensures keeps { Keeps result.0.ops result.1 }
    {
        (self.site, self.kept)
    }

    /// The number of the site.
    pub fn number(&self) -> u8
        ensures number { result ≡ self.now.number }
        ensures site { IsSite self.now.number }
    {
        self.site.number()
    }

    /// The history of the site.
    pub fn history(&self) -> &History
        ensures ops { result.now.ops ≡ self.now.ops }
        ensures accepted { AreAccepted self.now.ops }
        ensures valid { IsValid self.now.ops }
    {
        self.site.history()
    }

    /// Recalls that the history is accepted and valid. A caller takes no more of the call than its
    /// clauses.
    pub fn recall_history(&self)
        ensures accepted { AreAccepted self.now.ops }
        ensures valid { IsValid self.now.ops }
    {
        let _ = self.history();
    }

    /// The history with the table of its positions.
    pub fn indexed(&self) -> &IndexedHistory
        ensures { result.now ≡ self.now.ops }
    {
        self.site.indexed()
    }

    /// The visible versions, topmost first, if they are no more than a drawing has.
    pub fn ranked(&mut self, alloc: Global) -> Result<Option<Ranked<AnyShape>>, OutOfMemory>
        ensures same { self.new ≡ self.old }
        ensures ranked { IfOk result (λ found.
            IfSome found (λ ranked. AreRanked self.old.ops ranked.items.items)) }
        ensures few { IfOk result (λ found.
            IfSome found (λ ranked. length ranked.items.items ≤ MOST_VERSIONS)) }
        ensures more { IfOk result (λ found.
            IfNone found (HasMoreVisible self.old.ops MOST_VERSIONS)) }
    {
        ranked(alloc, &self.site, &mut self.kept)
    }

    /// Makes an operation of the change, adds it to the history, and answers a copy. All memory is
    /// there before anything changes.
    pub fn author(&mut self, change: Change) -> Result<Op, AuthorFault>
        ensures ok { IfOk result (λ op. Authors self.old change op self.new) }
        ensures err { IfErr result (Refuses self.old.number self.old.ops change) }
        ensures same { OnErr result (self.new ≡ self.old) }
    {
        self.site.history().recall_valid();
        let op = self.site.author(change)?;
        self.site.history().recall_valid();
        self.kept.forget(op.object());
        Ok(op)
    }

    /// Adds an operation that the history accepts. All memory is there before anything changes.
    pub fn add(&mut self, op: Op) -> Result<(), OutOfMemory>
        requires in_range { IsInRange op }
        requires accepted { IsAccepted self.old.ops op }
        ensures ok { OnOk result (self.new ≡ record self.old { ops = self.old.ops ++ op ∷ [] }) }
        ensures err { OnErr result (self.new ≡ self.old) }
    {
        self.site.history().recall_valid();
        let object = op.object();
        self.site.add(op)?;
        self.site.history().recall_valid();
        self.kept.forget(object);
        Ok(())
    }
}

/// The visible versions of a site, beside which these are kept.
fn ranked(
    alloc: Global,
    site: &Site,
    kept: &mut KeptVersions,
) -> Result<Option<Ranked<AnyShape>>, OutOfMemory>
    requires { Keeps site.now.ops kept.old }
    ensures keeps { Keeps site.now.ops kept.new }
    ensures ranked { IfOk result (λ found.
        IfSome found (λ ranked. AreRanked site.now.ops ranked.items.items)) }
    ensures few { IfOk result (λ found.
        IfSome found (λ ranked. length ranked.items.items ≤ MOST_VERSIONS)) }
    ensures more { IfOk result (λ found.
        IfNone found (HasMoreVisible site.now.ops MOST_VERSIONS)) }
{
    kept.ranked_within(alloc, &Versions::of(site.indexed()), MOST_VERSIONS)
}
