// Consulting a record through an open tracer: its entry is noted first, and where there is no room nothing is consulted.
// One method for each kind, and no generic one: each has a reply of its own type, and a closure for it would say in more words what two lines say.
// `steady` tells of a tracer before and after, which is no fact of one value, so no invariant can hold it.
ghost use Rattle.std.specs.Prelude.{◌≡◌, IfOk};
ghost use Rattle.font.specs.Replies.{glyph_list_of, kind_of, list_size, set_size, Copied};
ghost use Rattle.store.specs.Replies.{need_of};
ghost use Rattle.trace.specs.declared.entries.Entry.TheVariants.{Glyph, Condition as ConditionEntry, AxisList, Region, DeltaSet, Outline, Width};
ghost use Rattle.trace.specs.Meanings.{Meaning, reply};
ghost use Rattle.trace.specs.Tracing.{reading, Steady, Consulted};

use crate::entries::Entry;
use crate::tracer::Tracer;
use font::{Condition, DeltaSetSize, Font, GlyphList, RegionAxis};
use numbers::{F2Dot14, GlyphId};
use refusals::{Place, Refusal};
use store::OutlineStore;

impl Tracer<'_> {
    // The size of a glyph's component list, or none where it is not covered.
    #[tactic(auto, using(crate::proofs::Consults::consulted_told, crate::proofs::Consults::consulted_broken))]
    pub fn consult_glyph<X: Font>(
        &mut self,
        font: &X,
        place: Option<Place>,
        id: GlyphId,
    ) -> Result<Option<GlyphList>, Refusal>
        ensures steady { Steady self.old self.new }
        ensures consulted { (m : Meaning) → m.font.glyph ≡ X.Font.glyph font.now → Consulted self.old.size (reply m) place (Glyph id) glyph_list_of (reading self.old) (reading self.new) result }
    {
        self.note(place, Entry::Glyph(id))?;
        Ok(font.glyph_list(id))
    }

    // Whether a condition is null, or how many steps it has; none where it is missing.
    #[tactic(auto, using(crate::proofs::Consults::consulted_told, crate::proofs::Consults::consulted_broken))]
    pub fn consult_condition<X: Font>(
        &mut self,
        font: &X,
        place: Option<Place>,
        number: u32,
    ) -> Result<Option<Condition<usize>>, Refusal>
        ensures steady { Steady self.old self.new }
        ensures consulted { (m : Meaning) → m.font.condition ≡ X.Font.condition font.now → Consulted self.old.size (reply m) place (ConditionEntry number) kind_of (reading self.old) (reading self.new) result }
    {
        self.note(place, Entry::Condition(number))?;
        Ok(font.condition_kind(number))
    }

    // How many axis numbers a list has, or none where it is missing.
    #[tactic(auto, using(crate::proofs::Consults::consulted_told, crate::proofs::Consults::consulted_broken))]
    pub fn consult_axis_list<X: Font>(
        &mut self,
        font: &X,
        place: Option<Place>,
        number: u32,
    ) -> Result<Option<usize>, Refusal>
        ensures steady { Steady self.old self.new }
        ensures consulted { (m : Meaning) → m.font.axes ≡ X.Font.list font.now → Consulted self.old.size (reply m) place (AxisList number) list_size (reading self.old) (reading self.new) result }
    {
        self.note(place, Entry::AxisList(number))?;
        Ok(font.axis_list_size(number))
    }

    // The axes of a region, copied to the start of a table, and how many they are; none where it is missing.
    #[tactic(auto, using(crate::proofs::Consults::consulted_told, crate::proofs::Consults::consulted_broken))]
    pub fn consult_region<X: Font>(
        &mut self,
        font: &X,
        place: Option<Place>,
        number: u32,
        table: &mut [RegionAxis; 64],
    ) -> Result<Option<usize>, Refusal>
        ensures steady { Steady self.old self.new }
        ensures consulted { (m : Meaning) → m.font.region ≡ X.Font.region font.now → Consulted self.old.size (reply m) place (Region number) list_size (reading self.old) (reading self.new) result }
        ensures copied { IfOk result (λ n. Copied (X.Font.region font.now number) table.new n) }
    {
        self.note(place, Entry::Region(number))?;
        Ok(font.region_axes(number, table))
    }

    // The size of a delta set, or none where it is missing.
    #[tactic(auto, using(crate::proofs::Consults::consulted_told, crate::proofs::Consults::consulted_broken))]
    pub fn consult_delta_set<X: Font>(
        &mut self,
        font: &X,
        place: Option<Place>,
        number: u32,
    ) -> Result<Option<DeltaSetSize>, Refusal>
        ensures steady { Steady self.old self.new }
        ensures consulted { (m : Meaning) → m.font.deltas ≡ X.Font.set font.now → Consulted self.old.size (reply m) place (DeltaSet number) set_size (reading self.old) (reading self.new) result }
    {
        self.note(place, Entry::DeltaSet(number))?;
        Ok(font.delta_set_size(number))
    }

    // The bytes that an outline needs, or none where it is missing.
    #[tactic(auto, using(crate::proofs::Consults::consulted_told, crate::proofs::Consults::consulted_broken))]
    pub fn consult_outline<X: OutlineStore>(
        &mut self,
        store: &X,
        place: Option<Place>,
        id: GlyphId,
    ) -> Result<Option<u64>, Refusal>
        ensures steady { Steady self.old self.new }
        ensures consulted { (m : Meaning) → m.store.outline ≡ X.OutlineStore.outline store.now → Consulted self.old.size (reply m) place (Outline id) need_of (reading self.old) (reading self.new) result }
    {
        self.note(place, Entry::Outline(id))?;
        Ok(store.outline_need(id))
    }

    // The width of a glyph at a location.
    #[tactic(auto, using(crate::proofs::Consults::consulted_told, crate::proofs::Consults::consulted_broken))]
    pub fn consult_width<X: OutlineStore>(
        &mut self,
        store: &X,
        place: Option<Place>,
        id: GlyphId,
        location: &[F2Dot14],
    ) -> Result<i32, Refusal>
        ensures steady { Steady self.old self.new }
        ensures consulted { (m : Meaning) → m.store.width ≡ X.OutlineStore.width store.now → Consulted self.old.size (reply m) place (Width id) (λ w. w location.now) (reading self.old) (reading self.new) result }
    {
        self.note(place, Entry::Width(id))?;
        Ok(store.advance_width(id, location))
    }
}
