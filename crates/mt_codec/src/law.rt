//! Laws of the serialization, each the contract of a function that does nothing.

ghost use Rattle.std.specs.Prelude.{◌≡◌, ◌++◌, ℕ, List, Ok, length, true};
ghost use Rattle.std.specs.List.{flat_map, list_all};
ghost use Rattle.mt_types.specs.declared.ty.Ty.{Ty};
ghost use Rattle.mt_types.specs.declared.value.Value.{Value};
ghost use Rattle.mt_types.specs.Fits.{fits_of};
ghost use Rattle.mt_types.specs.Profile.{is_profile};
ghost use Rattle.mt_defs.specs.Encoding.{Encodes};
ghost use Rattle.mt_defs.specs.WrittenStreams.{written_streams};
ghost use Rattle.mt_codec.specs.ColumnReading.{decode_reading, front_reading};
ghost use Rattle.mt_codec.specs.Results.{AreFirstValues};
ghost use Rattle.mt_codec.specs.UnderNull.{DifferUnderNull};

/// The writer's substreams of values that fit are a serialization of these values.
pub fn written_streams_encode_their_values()
    ensures { (ty : Ty) (values : List Value) → is_profile ty ≡ true
        → list_all (fits_of ty) values ≡ true → Encodes ty values (written_streams ty values) }
{}

/// What `encode` gave is read as the same values.
pub fn written_streams_are_decoded()
    ensures { (ty : Ty) (values : List Value) → is_profile ty ≡ true
        → list_all (fits_of ty) values ≡ true
        → decode_reading ty (length values) (written_streams ty values) ≡ Ok values }
{}

/// So it is where its substreams follow each other, whatever follows them.
pub fn written_streams_are_decoded_in_front()
    ensures { (ty : Ty) (values : List Value) (rest : List ℕ) → is_profile ty ≡ true
        → list_all (fits_of ty) values ≡ true
        → front_reading ty (length values) (flat_map (λ s. s) (written_streams ty values) ++ rest)
        ≡ Ok (values, rest) }
{}

/// Two serializations of the same values differ only under NULL.
pub fn serializations_differ_only_under_null()
    ensures { (ty : Ty) (values : List Value) (streams streams' : List (List ℕ))
        → is_profile ty ≡ true → Encodes ty values streams → Encodes ty values streams'
        → DifferUnderNull ty streams streams' }
{}

/// Some bytes begin with the serialization of so many values in one way at most.
pub fn first_values_are_unique()
    ensures { (ty : Ty) (rows : ℕ) (bytes : List ℕ) (values values' : List Value) (used used' : ℕ)
        → is_profile ty ≡ true → AreFirstValues ty rows bytes values used
        → AreFirstValues ty rows bytes values' used' → (values ≡ values') × (used ≡ used') }
{}
