//! How many tables it takes to translate what an address space maps.

ghost use Rattle.std.specs.Prelude.{◌≡◌, false, true, length};
ghost use Rattle.std.specs.List.{list_all, list_any};
ghost use Rattle.iofd_runs.specs.Fits.{begins_at_page, is_of_pages};
ghost use Rattle.iofd_refusals.specs.Checks.{tables_to_map};
ghost use Rattle.iofd_words.specs.Ranges.{meets_some};
ghost use Rattle.iofd_words.specs.Span.{is_whole_pages, meets};
ghost use Rattle.iofd_words.specs.TablePlaces.{lacking, live_pages, places_of};
ghost use Rattle.iofd_words.specs.Usable.{beyond, unusable};
ghost use Rattle.server_state.specs.Held.{areas_at, objects_in};
ghost use Rattle.server_state.specs.Seen.{seen};
ghost use Rattle.server_state.specs.Step.{IsKnown};

use crate::lookups;
use crate::state::State;
use area_map::Areas;
use iofd_words::{FileNo, ObjId, Span, Width};
use std::alloc::Allocator;

impl<A: Allocator> State<A> {
    /// How many tables the page tables over the file's address space of this id lack to map the span, together: so many
    /// frames does it take. The span begins and ends at a page's border, and all of it can be used in the address
    /// space. It costs the levels for each table through which the span goes, and takes no memory.
    pub fn tables_to_map(&self, file: FileNo, ioas: ObjId, span: Span) -> u64
        requires known { IsKnown self.now }
        requires pages { is_whole_pages span ≡ true }
        requires usable { meets_some
            (unusable self.now.config (objects_in self.now.objects) self.now.attachments.items file ioas) span
            ≡ false }
        ensures { result ≡ tables_to_map (seen self.now) file ioas span }
    {
        // It is within its limits: so there are few page tables.
        self.config.facts();
        self.page_tables.needs(&self.pool, file, ioas, span)
    }

    /// How many tables a new page table of this width over the file's address space of this id would have, its root
    /// among them: so many frames does it take. No area reaches beyond the width. It goes through the areas once for
    /// each level at which they don't all lie in one table, and takes no memory.
    pub fn tables_for_new(&self, file: FileNo, ioas: ObjId, width: Width) -> u64
        requires known { IsKnown self.now }
        requires within { list_any (λ area. meets (beyond width) area.span)
            (areas_at self.now.objects.rows file ioas) ≡ false }
        ensures { result ≡ length (lacking (λ place. false)
            (places_of width (live_pages (areas_at self.now.objects.rows file ioas)))) }
    {
        match lookups::areas_of(&self.objects, file, ioas) {
            Some(areas) => tables_for(width, areas),
            // Its root.
            None => 1,
        }
    }
}

/// How many tables a page table of this width over these areas has.
fn tables_for<A: Allocator>(width: Width, areas: &Areas<A>) -> u64
    requires pages { list_all is_of_pages areas.now.areas ≡ true }
    requires starts { list_all begins_at_page areas.now.areas ≡ true }
    requires within { list_any (λ area. meets (beyond width) area.span) areas.now.areas ≡ false }
    ensures { result ≡ length (lacking (λ place. false) (places_of width (live_pages areas.now.areas))) }
{
    match areas.first_reaching(width.end()) {
        Some(area) => {
            // Never: no area reaches beyond the width.
            area.span.facts();
            unreachable!()
        }
        None => page_table_spans::tables_for(width, areas),
    }
}
