// The flat form of a record (document 01, 'What must change shape'): a field is a presence octet and 8 octets, high first; what
// is absent keeps its place, all zeros. Each function puts its part from `at` on and gives the place behind it. Presence and value
// stay apart, as the record has them, but for an address: an option would be made to be opened at once.
ghost use Rattle.std.specs.Prelude.{ℕ, ◌≡◌, refl, cond, ◌+◌, ◌*◌, ◌≤◌, leb, List, [], ◌∷◌, length};
ghost use Rattle.bits.specs.Bits.{bit};
ghost use Rattle.std.proofs.lemmas.List.Edits.{sets};
ghost use Rattle.exports.specs.Flat.{flat_field, flat_option, flat_type3, flat_type4, flat_class, flat_saving, flat_address, flat_attachment, flat_uplink, flat_downlink, flat_list, flat_location_demand, flat_location_accept, flat_demand_head, flat_demand_options, flat_demand_generics, flat_accept_head, flat_accept_front, flat_accept_generics, flat_attach_detach_head, flat_form, shown, shown_uplinks, shown_downlinks};
ghost use Rattle.exports.specs.FlatLaws.{Put};

use elements::class_of_ms::OptionalClassOfMs;
use elements::energy_saving_information::OptionalEnergySavingInformation;
use elements::group_address::GroupAddress;
use elements::group_identity_attachment::GroupIdentityAttachment;
use elements::group_identity_downlink::GroupIdentityDownlink;
use elements::group_identity_location_accept::OptionalLocationAccept;
use elements::group_identity_location_demand::OptionalLocationDemand;
use elements::group_identity_uplink::GroupIdentityUplink;
use elements::typed_pdu_fields::{OptionalType3, OptionalType4, OptionalU8, OptionalU64};
use messages::Pdu;
use messages::d_attach_detach_group_identity::DAttachDetachGroupIdentity;
use messages::d_location_update_accept::DLocationUpdateAccept;
use messages::u_location_update_demand::ULocationUpdateDemand;

// Eight octets in the place of eight. As an array: a copy between slices asks each time whether they overlap (docs/SPEED.md).
fn put_octets(part: &mut [u8], octets: [u8; 8])
    requires { length part.old ≡ 8 }
    ensures { part.new ≡ octets }
{
    if let Some(place) = part.as_mut_array() {
        *place = octets;
    }
}

// 9 octets: the presence, and 8 of the number.
fn put_field(flat: &mut [u8], at: usize, present: bool, value: u64) -> usize
    requires { at + 9 ≤ length flat.old }
    ensures { Put flat.old at (flat_field present value) flat.new result }
{
    let shown = if present { value } else { 0 };
    flat[at] = present as u8;
    put_octets(&mut flat[at + 1..at + 9], shown.to_be_bytes());
    at + 9
}

// A part of an address, which may be absent.
fn put_part(flat: &mut [u8], at: usize, part: Option<u32>) -> usize
    requires { at + 9 ≤ length flat.old }
    ensures { Put flat.old at (flat_option part) flat.new result }
{
    put_field(flat, at, part.is_some(), part.unwrap_or(0) as u64)
}

fn put_type3(flat: &mut [u8], at: usize, o: OptionalType3) -> usize
    requires { at + 18 ≤ length flat.old }
    ensures { Put flat.old at (flat_type3 o) flat.new result }
{
    let a = put_field(flat, at, o.present, o.value.len as u64);
    put_field(flat, a, o.present, o.value.data)
}

fn put_type4(flat: &mut [u8], at: usize, o: OptionalType4) -> usize
    requires { at + 27 ≤ length flat.old }
    ensures { Put flat.old at (flat_type4 o) flat.new result }
{
    let a = put_field(flat, at, o.present, o.value.len as u64);
    let b = put_field(flat, a, o.present, o.value.elems as u64);
    put_field(flat, b, o.present, o.value.data)
}

// A presence octet.
fn put_flag(flat: &mut [u8], at: usize, present: bool) -> usize
    requires { at + 1 ≤ length flat.old }
    ensures { Put flat.old at (bit present ∷ []) flat.new result }
{
    flat[at] = present as u8;
    at + 1
}

// A class of MS: its fields are all of one presence.
fn put_class(flat: &mut [u8], at: usize, o: OptionalClassOfMs) -> usize
    requires { at + 199 ≤ length flat.old }
    ensures { Put flat.old at (flat_class o) flat.new result }
{
    let mut place = put_flag(flat, at, o.present);
    let values = o.value.fields();
    for value in &values {
        place = put_field(flat, place, o.present, *value as u64);
    }
    place
}

fn put_saving(flat: &mut [u8], at: usize, o: OptionalEnergySavingInformation) -> usize
    requires { at + 28 ≤ length flat.old }
    ensures { Put flat.old at (flat_saving o) flat.new result }
{
    let a = put_flag(flat, at, o.present);
    let v = o.value;
    let b = put_field(flat, a, o.present, v.energy_saving_mode as u64);
    let f = v.frame_number;
    let d = put_field(flat, b, o.present & f.present, f.value as u64);
    let m = v.multiframe_number;
    put_field(flat, d, o.present & m.present, m.value as u64)
}

fn put_address(flat: &mut [u8], at: usize, address: GroupAddress) -> usize
    requires { at + 27 ≤ length flat.old }
    ensures { Put flat.old at (flat_address address) flat.new result }
{
    let a = put_part(flat, at, address.gssi);
    let b = put_part(flat, a, address.address_extension);
    put_part(flat, b, address.vgssi)
}

fn put_attachment(flat: &mut [u8], at: usize, present: bool, t: GroupIdentityAttachment) -> usize
    requires { at + 19 ≤ length flat.old }
    ensures { Put flat.old at (flat_attachment present t) flat.new result }
{
    let a = put_flag(flat, at, present);
    let b = put_field(
        flat,
        a,
        present,
        t.group_identity_attachment_lifetime as u64,
    );
    put_field(flat, b, present, t.class_of_usage as u64)
}

// A group in its flat form.
trait FlatGroup: Copy {
    ghost form: { Self → List ℕ };

    ghost LENGTH: { ℕ };
    // How many octets it has.
    const LENGTH: usize;

    fn put(self, flat: &mut [u8], at: usize) -> usize
        requires { at + LENGTH ≤ length flat.old }
        ensures { Put flat.old at (form self) flat.new result };

    ghost long: { (g : Self) → length (form g) ≡ LENGTH };
}

impl FlatGroup for GroupIdentityUplink {
    ghost form = { flat_uplink };

    ghost LENGTH = { 46 };

    ghost long = { λ g. refl };

    const LENGTH: usize = 46;

    fn put(self, flat: &mut [u8], at: usize) -> usize {
        let a = put_flag(flat, at, true);
        let b = put_field(
            flat,
            a,
            self.class_of_usage_present,
            self.class_of_usage as u64,
        );
        let d = put_field(
            flat,
            b,
            self.group_identity_detachment_uplink_present,
            self.group_identity_detachment_uplink as u64,
        );
        put_address(flat, d, self.address())
    }
}

impl FlatGroup for GroupIdentityDownlink {
    ghost form = { flat_downlink };

    ghost LENGTH = { 56 };

    ghost long = { λ g. refl };

    const LENGTH: usize = 56;

    fn put(self, flat: &mut [u8], at: usize) -> usize {
        let a = put_flag(flat, at, true);
        let t = self.group_identity_attachment;
        let b = put_attachment(flat, a, self.group_identity_attachment_present, t);
        let d = put_field(
            flat,
            b,
            self.group_identity_detachment_uplink_present,
            self.group_identity_detachment_uplink as u64,
        );
        put_address(flat, d, self.address())
    }
}

// How many groups of a list the flat form shows: as many as its array has at most.
fn shown_of<G>(present: bool, count: usize, groups: &[G; 63]) -> usize
    ensures { (result ≡ shown present count) × (result ≤ 63) × (length groups.now ≡ 63) }
{
    if present { count.min(63) } else { 0 }
}

// A list: its count, and its groups. `present` is its own presence and that of the structure around it together.
fn put_list<G: FlatGroup>(
    flat: &mut [u8],
    at: usize,
    present: bool,
    count: usize,
    groups: &[G; 63],
) -> usize
    requires { at + 9 + G.LENGTH * shown present count ≤ length flat.old }
    ensures { Put flat.old at (flat_list G.form present count groups.now) flat.new result }
{
    let mut place = put_field(flat, at, present, count as u64);
    for g in &groups[..shown_of(present, count, groups)] {
        place = g.put(flat, place);
    }
    place
}

fn put_location_demand(flat: &mut [u8], at: usize, o: &OptionalLocationDemand) -> usize
    requires { at + 19 + 46 * shown_uplinks o.now ≤ length flat.old }
    ensures { Put flat.old at (flat_location_demand o.now) flat.new result }
{
    let a = put_flag(flat, at, o.present);
    let b = put_field(
        flat,
        a,
        o.present,
        o.value.group_identity_attach_detach_mode as u64,
    );
    let list = &o.value.group_identity_uplink;
    put_list(flat, b, o.present & list.present, list.count, &list.groups)
}

fn put_location_accept(flat: &mut [u8], at: usize, o: &OptionalLocationAccept) -> usize
    requires { at + 19 + 56 * shown_downlinks o.now ≤ length flat.old }
    ensures { Put flat.old at (flat_location_accept o.now) flat.new result }
{
    let a = put_flag(flat, at, o.present);
    let b = put_field(
        flat,
        a,
        o.present,
        o.value.group_identity_accept_reject as u64,
    );
    let list = &o.value.group_identity_downlink;
    put_list(flat, b, o.present & list.present, list.count, &list.groups)
}

// A message's record in its flat form.
pub(crate) trait Flat: Pdu {
    // Puts it at the buffer's front, if the buffer has room for it.
    fn fill(self, flat: &mut [u8], skipped: usize) -> bool
        ensures fits { result ≡ leb (length (flat_form Self.message skipped (Self.of self))) (length flat.old) }
        ensures buffer { flat.new ≡ cond (leb (length (flat_form Self.message skipped (Self.of self))) (length flat.old)) (sets flat.old 0 (flat_form Self.message skipped (Self.of self))) flat.old };
}

fn put_demand_head(
    flat: &mut [u8],
    skipped: usize,
    update_type: u8,
    append: u8,
    control: u8,
    ciphering: OptionalU64,
) -> usize
    requires { 45 ≤ length flat.old }
    ensures { Put flat.old 0 (flat_demand_head skipped update_type append control ciphering) flat.new result }
{
    let a = put_field(flat, 0, true, skipped as u64);
    let b = put_field(flat, a, true, update_type as u64);
    let d = put_field(flat, b, true, append as u64);
    let e = put_field(flat, d, true, control as u64);
    put_field(flat, e, ciphering.present, ciphering.value)
}

fn put_demand_options(
    flat: &mut [u8],
    at: usize,
    mode: OptionalU8,
    la: OptionalU64,
    ssi: OptionalU64,
    extension: OptionalU64,
) -> usize
    requires { at + 36 ≤ length flat.old }
    ensures { Put flat.old at (flat_demand_options mode la ssi extension) flat.new result }
{
    let a = put_field(flat, at, mode.present, mode.value as u64);
    let b = put_field(flat, a, la.present, la.value);
    let d = put_field(flat, b, ssi.present, ssi.value);
    put_field(flat, d, extension.present, extension.value)
}

fn put_demand_generics(
    flat: &mut [u8],
    at: usize,
    response: OptionalType3,
    authentication: OptionalType3,
    capabilities: OptionalType3,
    proprietary: OptionalType3,
) -> usize
    requires { at + 72 ≤ length flat.old }
    ensures { Put flat.old at (flat_demand_generics response authentication capabilities proprietary) flat.new result }
{
    let a = put_type3(flat, at, response);
    let b = put_type3(flat, a, authentication);
    let d = put_type3(flat, b, capabilities);
    put_type3(flat, d, proprietary)
}

impl Flat for ULocationUpdateDemand {
    fn fill(self, flat: &mut [u8], skipped: usize) -> bool {
        let location = &self.group_identity_location_demand;
        let list = &location.value.group_identity_uplink;
        let groups = shown_of(location.present & list.present, list.count, &list.groups);
        if flat.len() < 371 + 46 * groups {
            return false;
        }
        let a = put_demand_head(
            flat,
            skipped,
            self.location_update_type,
            self.request_to_append_la,
            self.cipher_control,
            self.ciphering_parameters,
        );
        let b = put_class(flat, a, self.class_of_ms);
        let d = put_demand_options(
            flat,
            b,
            self.energy_saving_mode,
            self.la_information,
            self.ssi,
            self.address_extension,
        );
        let e = put_location_demand(flat, d, location);
        put_demand_generics(
            flat,
            e,
            self.group_report_response,
            self.authentication_uplink,
            self.extended_capabilities,
            self.proprietary,
        );
        true
    }
}

fn put_accept_head(
    flat: &mut [u8],
    skipped: usize,
    accept_type: u8,
    ssi: OptionalU64,
    extension: OptionalU64,
    subscriber: OptionalU64,
) -> usize
    requires { 45 ≤ length flat.old }
    ensures { Put flat.old 0 (flat_accept_head skipped accept_type ssi extension subscriber) flat.new result }
{
    let a = put_field(flat, 0, true, skipped as u64);
    let b = put_field(flat, a, true, accept_type as u64);
    let d = put_field(flat, b, ssi.present, ssi.value);
    let e = put_field(flat, d, extension.present, extension.value);
    put_field(flat, e, subscriber.present, subscriber.value)
}

fn put_accept_front(
    flat: &mut [u8],
    at: usize,
    saving: OptionalEnergySavingInformation,
    scch: OptionalU64,
    area: OptionalType4,
    security: OptionalType3,
) -> usize
    requires { at + 82 ≤ length flat.old }
    ensures { Put flat.old at (flat_accept_front saving scch area security) flat.new result }
{
    let a = put_saving(flat, at, saving);
    let b = put_field(flat, a, scch.present, scch.value);
    let d = put_type4(flat, b, area);
    put_type3(flat, d, security)
}

fn put_accept_generics(
    flat: &mut [u8],
    at: usize,
    lifetime: OptionalType3,
    authentication: OptionalType3,
    security: OptionalType4,
    cell: OptionalType3,
    proprietary: OptionalType3,
) -> usize
    requires { at + 99 ≤ length flat.old }
    ensures { Put flat.old at (flat_accept_generics lifetime authentication security cell proprietary) flat.new result }
{
    let a = put_type3(flat, at, lifetime);
    let b = put_type3(flat, a, authentication);
    let d = put_type4(flat, b, security);
    let e = put_type3(flat, d, cell);
    put_type3(flat, e, proprietary)
}

impl Flat for DLocationUpdateAccept {
    fn fill(self, flat: &mut [u8], skipped: usize) -> bool {
        let location = &self.group_identity_location_accept;
        let list = &location.value.group_identity_downlink;
        let groups = shown_of(location.present & list.present, list.count, &list.groups);
        if flat.len() < 245 + 56 * groups {
            return false;
        }
        let a = put_accept_head(
            flat,
            skipped,
            self.location_update_accept_type,
            self.ssi,
            self.address_extension,
            self.subscriber_class,
        );
        let b = put_accept_front(
            flat,
            a,
            self.energy_saving_information,
            self.scch_information_and_distribution_on_18th_frame,
            self.new_registered_area,
            self.security_downlink,
        );
        let d = put_location_accept(flat, b, location);
        put_accept_generics(
            flat,
            d,
            self.default_group_attachment_lifetime,
            self.authentication_downlink,
            self.group_identity_security_related_information,
            self.cell_type_control,
            self.proprietary,
        );
        true
    }
}

fn put_attach_detach_head(
    flat: &mut [u8],
    skipped: usize,
    report: u8,
    acknowledgement: u8,
    mode: u8,
) -> usize
    requires { 36 ≤ length flat.old }
    ensures { Put flat.old 0 (flat_attach_detach_head skipped report acknowledgement mode) flat.new result }
{
    let a = put_field(flat, 0, true, skipped as u64);
    let b = put_field(flat, a, true, report as u64);
    let d = put_field(flat, b, true, acknowledgement as u64);
    put_field(flat, d, true, mode as u64)
}

impl Flat for DAttachDetachGroupIdentity {
    fn fill(self, flat: &mut [u8], skipped: usize) -> bool {
        let list = &self.group_identity_downlink;
        let groups = shown_of(list.present, list.count, &list.groups);
        if flat.len() < 108 + 56 * groups {
            return false;
        }
        let a = put_attach_detach_head(
            flat,
            skipped,
            self.group_identity_report,
            self.group_identity_acknowledgement_request,
            self.group_identity_attach_detach_mode,
        );
        let b = put_type3(flat, a, self.proprietary);
        let d = put_type3(flat, b, self.group_report_response);
        let e = put_list(flat, d, list.present, list.count, &list.groups);
        put_type4(flat, e, self.group_identity_security_related_information);
        true
    }
}
