//! Writing a scheme as a network text.

ghost use Rattle.std.specs.Prelude.{◌≡◌, ◌<◌, ◌++◌, ◌∷◌, ◌&&◌, [], false, true, IfOk, OnOk, Ok, length, map, codes};
ghost use Rattle.std.specs.List.{AllPass, filter_map, flat_map, enumerate_from};
ghost use Rattle.std.specs.Option.{option_map_or};
ghost use Rattle.np_frac.specs.Amount.{is_amount};
ghost use Rattle.np_records.specs.Texts.{record_text, records_text};
ghost use Rattle.np_records.specs.Records.{records_of};
ghost use Rattle.np_model.specs.Scheme.Valid.{IsSound, has_amounts, is_amount_or_infinite};
ghost use Rattle.net_csv.specs.declared.refused.Tail.{Tail as TheTail};
ghost use Rattle.net_csv.specs.Grammar.{IsSchemeOf, read_records};
ghost use Rattle.net_csv.specs.AmountText.{amount_text};
ghost use Rattle.net_csv.specs.Writing.{upper_text, node_row, supply_row, ends_row, number_fields, flow_row, piece_row, flow_rows, head_rows, rows_of};
ghost use Rattle.net_csv.specs.Steps.Writing.{GrowsBy};

use crate::amounts::write_amount;
use np_frac::{Frac, Memory};
use np_model::{Band, Bands, Flow, FlowKind, Names, Scheme, Upper};
use np_records::Text;
use std::alloc::Global;
use std::marker::Model;

// A network text that is being written.
#[derive(Drop)]
struct NetText {
    text: Text,
    // Where an amount is written before it becomes a field.
    digits: Vec<u8>,
}

impl Model for NetText {
    ghost use Rattle.np_records.specs.Texts.{Written};

    ghost Value = { Written };

    ghost view = { λ s. s.text };
}

impl NetText {
    // The empty text.
    fn new(alloc: Global) -> NetText
        ensures { result ≡ record { bytes = []; fields = []; failed = false } }
    {
        NetText {
            text: Text::new(alloc),
            digits: Vec::new(alloc),
        }
    }

    // ---- fields

    // Adds an amount to the open record.
    fn amount(&mut self, value: Frac) -> Result<(), Memory>
        requires { is_amount value ≡ true }
        ensures fields { OnOk result (self.new.fields ≡ self.old.fields ++ amount_text value ∷ []) }
        ensures bytes { OnOk result (self.new.bytes ≡ self.old.bytes) }
    {
        self.digits.clear();
        write_amount(value, &mut self.digits)?;
        self.text.word(self.digits.as_slice())
    }

    // Adds an upper bound or a width to the open record.
    fn upper(&mut self, upper: &Upper) -> Result<(), Memory>
        requires { is_amount_or_infinite upper.now ≡ true }
        ensures fields { OnOk result (self.new.fields ≡ self.old.fields ++ upper_text upper.now ∷ []) }
        ensures bytes { OnOk result (self.new.bytes ≡ self.old.bytes) }
    {
        match upper {
            Upper::Finite(value) => self.amount(*value),
            Upper::Infinite => self.text.word(b"inf"),
        }
    }

    // Adds the bounds and the cost of a flow to the open record.
    fn numbers(&mut self, flow: &Flow) -> Result<(), Memory>
        requires { has_amounts flow.now ≡ true }
        ensures fields { OnOk result (self.new.fields ≡ self.old.fields ++ number_fields flow.now) }
        ensures bytes { OnOk result (self.new.bytes ≡ self.old.bytes) }
    {
        self.amount(flow.lower)?;
        self.upper(&flow.upper)?;
        self.amount(flow.cost)
    }

    // Begins the record of a flow with what it joins, and its gain where it has one.
    fn ends(&mut self, nodes: &Names, flow: &Flow) -> Result<(), Memory>
        requires sound { IsSound (length nodes.now) flow.now }
        requires closed { self.old.fields ≡ [] }
        ensures fields { OnOk result (self.new.fields ≡ ends_row nodes.now flow.now.name flow.now.kind) }
        ensures bytes { OnOk result (self.new.bytes ≡ self.old.bytes) }
    {
        let name = flow.name.as_slice();
        match flow.kind {
            FlowKind::Link { from, to, gain } => {
                self.text.word(b"arc")?;
                self.text.word(name)?;
                self.text.word(nodes.name_at(from as usize))?;
                self.text.word(nodes.name_at(to as usize))?;
                self.amount(gain)
            }
            FlowKind::Hold { node, gain } => {
                self.text.word(b"hold")?;
                self.text.word(name)?;
                self.text.word(nodes.name_at(node as usize))?;
                self.amount(gain)
            }
            FlowKind::Drain { node } => {
                self.text.word(b"drain")?;
                self.text.word(name)?;
                self.text.word(nodes.name_at(node as usize))
            }
            FlowKind::Feed { node } => {
                self.text.word(b"feed")?;
                self.text.word(name)?;
                self.text.word(nodes.name_at(node as usize))
            }
        }
    }

    // ---- records

    // Writes the two records at the head.
    fn head(&mut self, periods: u32) -> Result<(), Memory>
        requires { self.old.fields ≡ [] }
        ensures { OnOk result (GrowsBy self.old self.new (records_text (head_rows periods))) }
    {
        self.text.word(b"netplan")?;
        self.text.word(b"1")?;
        self.text.end()?;
        self.text.word(b"periods")?;
        self.text.number(u64::from(periods))?;
        self.text.end()
    }

    // Writes the record of a node.
    fn node(&mut self, name: &[u8]) -> Result<(), Memory>
        requires { self.old.fields ≡ [] }
        ensures { OnOk result (GrowsBy self.old self.new (record_text (node_row name.now))) }
    {
        self.text.word(b"node")?;
        self.text.word(name)?;
        self.text.end()
    }

    // Writes the supply at a place, where it is not 0.
    fn supply(&mut self, nodes: &Names, place: usize, amount: Frac) -> Result<(), Memory>
        requires some { 0 < length nodes.now }
        requires few { place < 20000 }
        requires amount { is_amount amount ≡ true }
        requires closed { self.old.fields ≡ [] }
        ensures { OnOk result (GrowsBy self.old self.new (option_map_or record_text (supply_row nodes.now (place, amount)) [])) }
    {
        if amount.is_same(Frac::whole(0)) {
            return Ok(());
        }
        let count = nodes.as_slice().len();
        self.text.word(b"supply")?;
        self.text.word(nodes.name_at(place % count))?;
        self.text.number((place / count + 1) as u64)?;
        self.amount(amount)?;
        self.text.end()
    }

    // Writes the record of a flow.
    fn flow(&mut self, nodes: &Names, flow: &Flow) -> Result<(), Memory>
        requires sound { IsSound (length nodes.now) flow.now }
        requires closed { self.old.fields ≡ [] }
        ensures { OnOk result (GrowsBy self.old self.new (record_text (flow_row nodes.now flow.now))) }
    {
        self.ends(nodes, flow)?;
        self.numbers(flow)?;
        self.text.end()
    }

    // Writes the record of a piece, which is a band of the flow that it names.
    fn piece(&mut self, name: &[u8], band: &Band) -> Result<(), Memory>
        requires amounts { (is_amount_or_infinite band.now.width && is_amount band.now.slope) ≡ true }
        requires closed { self.old.fields ≡ [] }
        ensures { OnOk result (GrowsBy self.old self.new (record_text (piece_row name.now band.now))) }
    {
        self.text.word(b"piece")?;
        self.text.word(name)?;
        self.upper(&band.width)?;
        self.amount(band.slope)?;
        self.text.end()
    }

    // ---- all of a kind

    // Writes a record for each node.
    fn nodes(&mut self, nodes: &Names) -> Result<(), Memory>
        requires { self.old.fields ≡ [] }
        ensures { OnOk result (GrowsBy self.old self.new (records_text (map node_row nodes.now))) }
    {
        for name in nodes.as_slice() {
            self.node(name.as_slice())?;
        }
        Ok(())
    }

    // Writes the supplies that are not 0.
    fn supplies(&mut self, scheme: &Scheme) -> Result<(), Memory>
        requires { self.old.fields ≡ [] }
        ensures { OnOk result (GrowsBy self.old self.new (records_text (filter_map (supply_row scheme.now.nodes) (enumerate_from 0 scheme.now.supply)))) }
    {
        for (place, amount) in scheme.supply.as_slice().iter().enumerate() {
            self.supply(&scheme.nodes, place, *amount)?;
        }
        Ok(())
    }

    // Writes the records of the bands of a flow.
    fn bands(&mut self, name: &[u8], bands: &Bands) -> Result<(), Memory>
        requires amounts { AllPass (λ band. is_amount_or_infinite band.width && is_amount band.slope) bands.now }
        requires closed { self.old.fields ≡ [] }
        ensures { OnOk result (GrowsBy self.old self.new (records_text (map (piece_row name.now) bands.now))) }
    {
        for band in bands.as_slice() {
            self.piece(name, band)?;
        }
        Ok(())
    }

    // Writes the records of a flow and of its bands.
    fn whole_flow(&mut self, nodes: &Names, flow: &Flow) -> Result<(), Memory>
        requires sound { IsSound (length nodes.now) flow.now }
        requires closed { self.old.fields ≡ [] }
        ensures { OnOk result (GrowsBy self.old self.new (records_text (flow_rows nodes.now flow.now))) }
    {
        self.flow(nodes, flow)?;
        self.bands(flow.name.as_slice(), &flow.bands)
    }

    // Writes the records of all flows, each with its bands.
    fn flows(&mut self, scheme: &Scheme) -> Result<(), Memory>
        requires { self.old.fields ≡ [] }
        ensures { OnOk result (GrowsBy self.old self.new (records_text (flat_map (flow_rows scheme.now.nodes) scheme.now.flows))) }
    {
        for flow in scheme.flows.as_slice() {
            self.whole_flow(&scheme.nodes, flow)?;
        }
        Ok(())
    }

    // Writes the last record.
    fn last(&mut self) -> Result<(), Memory>
        requires { self.old.fields ≡ [] }
        ensures { OnOk result (GrowsBy self.old self.new (record_text (codes "end" ∷ []))) }
    {
        self.text.word(b"end")?;
        self.text.end()
    }

    // The bytes of the text.
    fn into_bytes(self) -> Result<Vec<u8>, Memory>
        ensures { IfOk result (λ bytes. bytes.items ≡ self.bytes) }
    {
        let NetText { text, .. } = self;
        text.into_bytes()
    }
}

/// The network text of a scheme: its periods, its nodes, the supplies that are not 0, and its flows with their bands,
/// each in order.
///
/// Read again, the text is that of this scheme and of no other. `Memory` comes where memory ran out.
pub fn scheme_text(alloc: Global, scheme: &Scheme) -> Result<Vec<u8>, Memory>
    ensures text { IfOk result (λ bytes. bytes.items ≡ records_text (rows_of scheme.now)) }

    // Read with either `Tail`, the text has no fault and is read to its end, and it is that of the scheme.
    ensures read_back { IfOk result (λ bytes. (tail : TheTail)
        → (read_records tail (records_of bytes.items) ≡ Ok (length (rows_of scheme.now)))
        × IsSchemeOf (records_of bytes.items) scheme.now) }
{
    let mut text = NetText::new(alloc);
    text.head(scheme.periods)?;
    text.nodes(&scheme.nodes)?;
    text.supplies(scheme)?;
    text.flows(scheme)?;
    text.last()?;
    text.into_bytes()
}
