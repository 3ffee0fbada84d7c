//! `SpanSet`: a set to which the numbers of an item are added.
ghost use Rattle.std.specs.Prelude.{◌≡◌, ◌+◌, ◌-◌, ◌<◌, ◌≤◌, ℕ};
ghost use Rattle.chrono_sets.specs.FiniteSets.{FiniteSet};
ghost use Rattle.timed_cron.specs.DialectFields.{with_span};
ghost use Rattle.timed_cron.specs.Private.{IsForm, IsSpanOf};
ghost use Rattle.timed_cron.specs.declared.field_form.FieldForm.{FieldForm};
ghost use Rattle.timed_cron.specs.declared.field_form.Span.{Span};

use crate::field_form::{FieldForm, Span};
use chrono_sets::{NumberSet, PlaceSet};

// A set of the numbers of a field, each by its place.
pub(crate) trait SpanSet {
    // The set with the numbers of a span.
    ghost with: { Self → FieldForm → Span → Self };

    // The places are below it.
    ghost limit: { ℕ };

    // The set and the numbers that a span lists.
    fn with_span(self, form: FieldForm, span: Span) -> Self
        requires form { IsForm form }
        requires span { IsSpanOf form span }
        requires places { form.high < form.base + limit }
        ensures { result ≡ with self form span };
}

impl SpanSet for NumberSet {
    ghost with = { with_span };

    ghost limit = { 64 };

    #[tactic(auto, unfolding(crate::specs::DialectFields::with_span))]
    fn with_span(self, form: FieldForm, span: Span) -> NumberSet {
        let mut set = self;
        let mut number = form.low;
        while number <= form.high {
            if span.lists(form, number) {
                set = set.with(number - form.base);
            }
            number += 1;
        }
        set
    }
}

impl SpanSet for PlaceSet {
    ghost with = { with_span };

    ghost limit = { 384 };

    #[tactic(auto, unfolding(crate::specs::DialectFields::with_span))]
    fn with_span(self, form: FieldForm, span: Span) -> PlaceSet {
        let mut set = self;
        let mut number = form.low;
        while number <= form.high {
            if span.lists(form, number) {
                set = set.with(number - form.base);
            }
            number += 1;
        }
        set
    }
}
