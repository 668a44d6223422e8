//! The names of categories in an AppInfo block.

ghost use Rattle.std.specs.Prelude.{◌≡◌, ◌≤◌, ◌<◌, length, option_map, IfSome};
ghost use Rattle.std.specs.Bool.{OnTrue};
ghost use Rattle.std.specs.List.{list_all};
ghost use Rattle.heap_model.specs.Categories.{categories};
ghost use Rattle.file_listing.specs.Categories as words;
ghost use Rattle.file_listing.specs.Categories.{layout_size, all_named, categories_in, category_name, record_category};

use db_format::{CATEGORIES, NameField, RecordAttrs, name_in};
use pdb_format::{FileBytes, PdbFile};
use std::marker::Model;

/// The size of the field of a name in bytes.
const FIELD_SIZE: usize = 16;

/// Where the first field begins, in bytes from the start of AppInfo.
const FIELDS_AT: usize = 2;

/// The size of the standard layout in bytes.
const LAYOUT_SIZE: usize = 276;

/// The first bytes of the AppInfo block of a file, if it has the names of categories. Contracts see
/// these bytes.
#[derive(Drop)]
pub(crate) struct Categories<'a> {
    app: Option<&'a [u8]>,
}

impl<'a> Model for Categories<'a> {
    ghost use Rattle.std.specs.Prelude.{ℕ, List, Option, IfSome, option_map, length, ◌≤◌};
    ghost use Rattle.file_listing.specs.Categories.{layout_size};

    ghost Value = { Option (List ℕ) };

    ghost view = { λ categories. option_map (λ app. app.now) categories.app };

    ghost invariant = { λ categories. IfSome categories.app (λ app. layout_size ≤ length app.now) };
}

/// Returns the bytes before the first zero, from the field of a category on.
fn text_at(app: &[u8], number: u8) -> &[u8]
    requires long { layout_size ≤ length app.now }
    requires inside { number < categories }
    ensures { result.now ≡ words.text_at app.now number }
{
    name_in(&app[FIELDS_AT + FIELD_SIZE * number as usize..])
}

/// Returns whether a byte is no control character of ASCII.
fn is_character(byte: u8) -> bool
    ensures { result ≡ words.is_character byte }
{
    byte >= b' ' && byte != 127
}

/// Returns whether none of these bytes is a control character of ASCII.
fn are_characters(text: &[u8]) -> bool
    ensures { result ≡ list_all words.is_character text.now }
{
    for byte in text {
        if !is_character(*byte) {
            return false;
        }
    }
    true
}

/// Returns whether the field of a category has a name, which may be empty.
#[tactic(auto, unfolding(crate::specs::Categories::has_name))]
fn has_name(app: &[u8], number: u8) -> bool
    requires long { layout_size ≤ length app.now }
    requires inside { number < categories }
    ensures { result ≡ words.has_name app.now number }
{
    let text = text_at(app, number);
    text.len() < FIELD_SIZE && are_characters(text)
}

/// Returns whether each field has a name.
fn have_names(app: &[u8]) -> bool
    requires { layout_size ≤ length app.now }
    ensures { result ≡ all_named app.now }
{
    for number in 0..CATEGORIES {
        if !has_name(app, number) {
            return false;
        }
    }
    true
}

/// Returns whether an AppInfo block has the names of categories.
#[tactic(auto, unfolding(crate::specs::Categories::has_names))]
fn has_names(app: &[u8]) -> bool
    ensures is { result ≡ words.has_names app.now }
    ensures long { OnTrue result (layout_size ≤ length app.now) }
{
    app.len() >= LAYOUT_SIZE && have_names(app) && !text_at(app, 0).is_empty()
}

/// Keeps the first bytes of an AppInfo block, if it has the names of categories.
fn if_names(app: Option<&[u8]>) -> Categories<'_>
    ensures { result ≡ words.if_names (option_map (λ app. app.now) app.entry) }
{
    match app {
        Some(app) => {
            if has_names(app) {
                Categories { app: Some(app) }
            } else {
                Categories { app: None }
            }
        }
        None => Categories { app: None },
    }
}

/// Returns the first bytes of the AppInfo block of a file, if it has the names of categories.
pub(crate) fn categories_of<'a, B: FileBytes>(file: &'a PdbFile<'_, B>) -> Categories<'a>
    ensures { result ≡ categories_in file.now }
{
    if file.has_resources() {
        return Categories { app: None };
    }
    if_names(file.app())
}

/// Returns the name of a category, unless it is empty.
pub(crate) fn name_of(app: &[u8], number: u8) -> Option<NameField>
    requires long { layout_size ≤ length app.now }
    requires inside { number < categories }
    ensures { result ≡ category_name app.now number }
{
    NameField::of_name(text_at(app, number))
}

impl<'a> Categories<'a> {
    /// Returns the first bytes of the AppInfo block with the names.
    pub(crate) fn app(&self) -> Option<&'a [u8]>
        ensures is { option_map (λ app. app.now) result ≡ self.now }
        ensures long { IfSome result (λ app. layout_size ≤ length app.now) }
    {
        self.app
    }

    /// Returns the name of the category of a record with these attributes, if it has one.
    pub(crate) fn of_record(&self, attributes: RecordAttrs) -> Option<NameField>
        ensures { result ≡ record_category self.now attributes.0 }
    {
        if attributes.is_deleted() {
            return None;
        }
        match self.app() {
            Some(app) => name_of(app, attributes.category()),
            None => None,
        }
    }
}
