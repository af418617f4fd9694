//! How pictures look: the colours are those of Okabe and Ito,
//! and beside each colour stands a shape.

/// Colours for light and dark paper, the strips of bars, the tips of arrows, and the hatch.
pub const STYLE: &[u8] = b"\
<style>\n\
svg{--paper:#fff;--ink:#000;--soft:#666;--lane:#f2f2f2;\
--pale-scan:#e2f2fc;--pale-update:#fdf0d5;--mark:#0072b2;--red:#d55e00}\n\
@media(prefers-color-scheme:dark){svg{--paper:#15171b;--ink:#f2f2f2;--soft:#aaa;\
--lane:#24272d;--pale-scan:#0e3b57;--pale-update:#543a00;--mark:#56b4e9;--red:#ff8c3a}}\n\
text{font:15px system-ui,\"DejaVu Sans\",sans-serif;fill:var(--ink)}\n\
.title{font-size:20px;font-weight:bold}\n\
.counts,.number{fill:var(--soft)}\n\
.number,.seen{text-anchor:middle}\n\
.no,.without{text-anchor:start;transform:translate(6px,0);font-weight:bold;\
stroke:var(--paper);stroke-width:5;paint-order:stroke}\n\
.no{fill:var(--red)}\n\
.seen{font-weight:bold;fill:var(--mark)}\n\
.words,.state{fill:#000}\n\
.paper{fill:var(--paper)}\n\
.lane{fill:var(--lane)}\n\
.scan rect{fill:url(#scan);stroke:#0072b2;stroke-width:3}\n\
.update rect{fill:url(#update);stroke:#a36f00;stroke-width:3}\n\
.inner rect{fill:#56b4e9;fill-opacity:.45;stroke:#0072b2;stroke-width:2}\n\
.values rect{fill:#f0e442;stroke:#776f00;stroke-width:2}\n\
.write,.tick,.read{stroke:var(--ink);stroke-width:1.5;fill:none}\n\
.write circle{fill:var(--ink);stroke:var(--paper)}\n\
.trail{stroke:var(--soft);stroke-width:1;opacity:.7;fill:none}\n\
.pass{stroke:#009e73;stroke-width:3.5;fill:none}\n\
.fail{stroke:var(--ink);stroke-width:2.5;fill:none}\n\
.trap{fill:var(--red);stroke:var(--paper);stroke-width:2}\n\
.crash{stroke:var(--ink);stroke-width:6;fill:none}\n\
.arrow{stroke:#cc79a7;stroke-width:3.5;fill:none;marker-end:url(#tip);marker-start:url(#root)}\n\
.tip{fill:#cc79a7}\n\
.drop{stroke:var(--mark);stroke-width:4;stroke-dasharray:6 5;fill:none;marker-end:url(#foot)}\n\
.diamond{fill:var(--mark);stroke:var(--paper);stroke-width:1.5}\n\
.none rect{fill:none;stroke:var(--ink);stroke-width:3;stroke-dasharray:9 6}\n\
.wrong rect{fill:url(#hatch);fill-opacity:.4;stroke:var(--red);stroke-width:4}\n\
.bar{stroke:var(--red);stroke-width:4;fill:none}\n\
.low{stop-color:var(--pale-scan)}\n\
.lower{stop-color:var(--pale-update)}\n\
</style>\n\
<defs>\n\
<linearGradient id=\"scan\" x2=\"0\" y2=\"1\"><stop offset=\".52\" stop-color=\"#56b4e9\"/>\
<stop offset=\".52\" class=\"low\"/></linearGradient>\n\
<linearGradient id=\"update\" x2=\"0\" y2=\"1\"><stop offset=\".52\" stop-color=\"#e69f00\"/>\
<stop offset=\".52\" class=\"lower\"/></linearGradient>\n\
<marker id=\"tip\" class=\"tip\" viewBox=\"0 0 10 10\" refX=\"9\" refY=\"5\" \
markerWidth=\"4.5\" markerHeight=\"4.5\" orient=\"auto\"><path d=\"M0 0l10 5-10 5z\"/></marker>\n\
<marker id=\"root\" class=\"tip\" viewBox=\"0 0 10 10\" refX=\"5\" refY=\"5\" \
markerWidth=\"3\" markerHeight=\"3\"><path d=\"M0 0h10v10h-10z\"/></marker>\n\
<marker id=\"foot\" class=\"diamond\" viewBox=\"0 0 10 10\" refX=\"5\" refY=\"5\" \
markerWidth=\"14\" markerHeight=\"14\" markerUnits=\"userSpaceOnUse\">\
<path d=\"M5 0l5 5-5 5-5-5z\"/></marker>\n\
<pattern id=\"hatch\" width=\"9\" height=\"9\" \
patternUnits=\"userSpaceOnUse\" patternTransform=\"rotate(45)\">\
<path d=\"M0 0v9\" stroke=\"#d55e00\" stroke-width=\"3\"/></pattern>\n\
</defs>\n\
<rect class=\"paper\" width=\"100%\" height=\"100%\"/>\n\
";

/// What each shape means.
pub const LEGEND: &[u8] = b"\
<svg class=\"scan\" width=\"60\" height=\"26\"><rect width=\"100%\" height=\"100%\"/></svg>\
<text x=\"70\" y=\"19\">scan and its answer</text>\n\
<svg class=\"update\" x=\"240\" width=\"60\" height=\"26\">\
<rect width=\"100%\" height=\"100%\"/></svg>\
<text x=\"310\" y=\"19\">update of a word to a value</text>\n\
<svg class=\"inner\" x=\"530\" width=\"60\" height=\"26\">\
<rect width=\"100%\" height=\"100%\"/></svg><text x=\"600\" y=\"19\">scan of an update</text>\n\
<svg class=\"values\" x=\"760\" width=\"60\" height=\"26\">\
<rect width=\"100%\" height=\"100%\"/></svg><text x=\"830\" y=\"19\">values of the words</text>\n\
<path class=\"diamond\" d=\"M1010 2l9 12-9 12-9-12z\"/>\
<text x=\"1028\" y=\"19\">point of a scan, with the state that it answers</text>\n\
<path class=\"read\" d=\"M5 46v10m6-10v10m6-10v10\"/>\
<text x=\"30\" y=\"57\">reads: a collect</text>\n\
<path class=\"pass\" d=\"M185 52m-5 0l4 5 7-11\"/><text x=\"200\" y=\"57\">test passes</text>\n\
<path class=\"fail\" d=\"M310 52m-4-4l8 8m0-8l-8 8\"/><text x=\"325\" y=\"57\">test fails</text>\n\
<g class=\"write\"><path d=\"M425 40V54\"/><circle r=\"5\" cx=\"425\" cy=\"54\"/></g>\
<text x=\"440\" y=\"57\">write of a word, up to the values</text>\n\
<path class=\"arrow\" d=\"M700 54L750 48\"/>\
<text x=\"762\" y=\"57\">view borrowed, from its lender</text>\n\
<g class=\"none\"><rect x=\"1010\" y=\"42\" width=\"44\" height=\"20\"/></g>\
<text x=\"1064\" y=\"57\">scan with no point</text>\n\
<path class=\"crash\" d=\"M1235 52m-8-8l16 16m0-16l-16 16\"/>\
<text x=\"1252\" y=\"57\">crash</text>\n\
<path class=\"trap\" d=\"M1325 41l13 20h-26z\"/><text x=\"1346\" y=\"57\">trap</text>\n\
<g class=\"wrong\"><rect x=\"1400\" y=\"42\" width=\"44\" height=\"20\"/>\
<path class=\"bar\" d=\"M1400 42L1444 62\"/><path class=\"bar\" d=\"M1400 62L1444 42\"/></g>\
<text x=\"1454\" y=\"57\">not linearizable</text>\n\
";
